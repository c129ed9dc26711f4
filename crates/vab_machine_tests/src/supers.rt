// Images of the `super` of a disk in memory.

use crate::held::sector;
use std::alloc::Global;
use std::test::*;
use vab_disk::MemPort;
use vab_recover::start;
use vab_super_image::{read_super_image, wiped};
use vab_tables::encode_table;

// Where the geometry's block and the slots' tables begin on the disk.
const GEOMETRY: u64 = 4104;

const TABLES: u64 = 4120;

fn push_sectors(d: &mut MemPort, out: &mut Vec<u8>, first: u64, count: u64) -> Result<(), Fail> {
    for i in 0..count {
        out.extend_from_slice(&sector(d, first.saturating_add(i))?)?;
    }
    Ok(())
}

// The image with this slot's table without its extents.
fn emptied(alloc: Global, bytes: &[u8], slot: usize) -> Result<Vec<u8>, Fail> {
    if slot > 1 {
        return Err("there are two slots".into());
    }
    let Ok(Some(image)) = read_super_image(alloc, bytes, slot) else {
        return Err("the slot has a table".into());
    };
    let Ok(table) = wiped(alloc, &image.table) else {
        return Err("there is memory".into());
    };
    let Ok(text) = encode_table(alloc, &table) else {
        return Err("there is memory".into());
    };
    let mut out = Vec::from_slice(alloc, &bytes[..bytes.len().min(4096)])?;
    out.extend_from_slice(text.as_slice())?;
    Ok(out)
}

/// The geometry's block, and the table of the current slot as it stands or without its extents.
pub(crate) fn super_image(alloc: Global, d: &mut MemPort, is_empty: bool) -> Result<Vec<u8>, Fail> {
    let Ok(device) = start(alloc, d) else {
        return Err("a device is opened".into());
    };
    let slot = device.current();
    let count = u64::from(device.geometry.max / 512);
    let table = TABLES.saturating_add(count.saturating_mul(slot as u64));
    let mut bytes = Vec::new(alloc);
    push_sectors(d, &mut bytes, GEOMETRY, 8)?;
    push_sectors(d, &mut bytes, table, count)?;
    if is_empty {
        emptied(alloc, &bytes, slot)
    } else {
        Ok(bytes)
    }
}
