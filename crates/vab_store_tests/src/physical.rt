// The physical partitions behind `super`.
ghost use Rattle.std.specs.Prelude.{◌<◌, ◌^◌};

use crate::pair::partition;
use std::alloc::Global;
use std::test::*;
use vab_disk::{Disk, MemPort};
use vab_gate::{get_block, put_block};
use vab_marks::PhysicalSizes;
use vab_physical::{copy_image, maps_behind, put_sizes, read_tail};

const SIZES: PhysicalSizes = PhysicalSizes { boot: 2, vbmeta: 1 };

// A disk of zeros with these sizes.
fn disk(alloc: Global, sectors: u64) -> Result<MemPort, Fail>
    requires { sectors < 2 ^ 50 }
{
    match MemPort::new(alloc, sectors, Vec::new(alloc)) {
        Ok(port) => Ok(port),
        Err(_) => Err("there is memory for a disk")?,
    }
}

// Where `super` ends on a disk of so many sectors with those sizes.
fn end_on(alloc: Global, sectors: u64) -> Result<Option<u64>, Fail>
    requires { sectors < 2 ^ 50 }
{
    let mut d = disk(alloc, sectors)?;
    if d.sectors() <= 2113 || put_sizes(&mut d, &SIZES).is_err() {
        return Ok(None);
    }
    Ok(match read_tail(&mut d) {
        Ok(Some(tail)) if tail.sizes == SIZES => Some(tail.super_end),
        _ => None,
    })
}

// The last 48 sectors of a disk are boot of slot a and of slot b, and vbmeta of both.
#[test]
fn physical_partitions_stand_on_the_last_sectors(rt: HostRuntime) -> Result<(), Fail> {
    let alloc = rt.alloc();
    for (sectors, end) in [(8256, Some(8208)), (4168, Some(4120)), (4167, None)] {
        assert_eq!(rt; end_on(alloc, sectors)?, end, "on {sectors}");
    }
    let mut blank = disk(alloc, 8256)?;
    assert!(rt; blank.sectors() > 2113 && read_tail(&mut blank) == Ok(None));
    let maps = maps_behind(alloc, &SIZES, 8208).map_err(|_| "there is memory for the maps")?;
    let mut places = Vec::new(alloc);
    for maps in maps.as_slice() {
        for map in [&maps.a, &maps.b] {
            if map.len() > 0 {
                places.push((map.sector_of(0), map.len()))?;
            }
        }
    }
    let wanted = [(8208, 2), (8224, 2), (8240, 1), (8248, 1)];
    assert_eq!(rt; places.as_slice(), wanted.as_slice());
    Ok(())
}

// Fills the blocks of boot of slot a with 1 and 2, and those of vbmeta of slot a with 3.
fn fill(d: &mut MemPort) -> bool {
    for (at, byte) in [(8208, 1), (8216, 2), (8240, 3)] {
        if at + 8 > d.sectors() || put_block(d, at, &[byte; 4096]).is_err() {
            return false;
        }
    }
    d.sync().is_ok()
}

// Makes boot of slot b what boot of slot a holds.
fn keep_boot(alloc: Global, d: &mut MemPort) -> Result<bool, Fail> {
    let from = partition(alloc, 8208, 2)?;
    let to = partition(alloc, 8224, 2)?;
    Ok(d.sectors() >= 8240 && copy_image(d, &from, &to).is_ok())
}

// The byte that a block is filled with.
fn byte_at(d: &mut MemPort, at: u64) -> Option<u8>
    requires { at < 2 ^ 50 }
{
    let mut bytes = [0; 4096];
    if at + 8 > d.sectors() || get_block(d, at, &mut bytes).is_err() {
        return None;
    }
    bytes
        .iter()
        .all(|byte| *byte == bytes[0])
        .then_some(bytes[0])
}

#[test]
fn a_partition_becomes_what_another_holds(rt: HostRuntime) -> Result<(), Fail> {
    let alloc = rt.alloc();
    let mut d = disk(alloc, 8256)?;
    assert!(rt; fill(&mut d) && keep_boot(alloc, &mut d)?);
    let mut d = d.next_run(Vec::new(alloc));
    for (at, byte) in [
        (8200, 0),
        (8208, 1),
        (8216, 2),
        (8224, 1),
        (8232, 2),
        (8240, 3),
        (8248, 0),
    ] {
        assert_eq!(rt; byte_at(&mut d, at), Some(byte), "at {at}");
    }
    Ok(())
}
