// What is said of a device of one image of which some sectors are zeros.

use crate::pages::{checked, device_of_one};
use std::alloc::Global;
use std::test::*;
use vab_disk::{Disk, MemPort};

// A whole device.
const FINE: &[u8] = b"size ok\nmark ok\nstatuses ok\ncontrol ok\n\
    geometry primary ok\ngeometry backup ok\ngeometry ok\n\
    table a primary ok\ntable a backup ok\ntables ok\n\
    partitions ok\nstores ok\nstates ok\n";

// No update mark.
const NO_MARK: &[u8] = b"size ok\nmark sector 2048 is no update mark\nstatuses not judged\n\
    control ok\ngeometry primary ok\ngeometry backup ok\ngeometry ok\n\
    tables not judged\npartitions not judged\nstores not judged\nstates not judged\n";

// No boot control: what stands behind it is judged.
const NO_CONTROL: &[u8] = b"size ok\nmark ok\nstatuses ok\n\
    control sector 4 is no boot control: bad magic\n\
    geometry primary ok\ngeometry backup ok\ngeometry ok\n\
    table a primary ok\ntable a backup ok\ntables ok\n\
    partitions ok\nstores ok\nstates not judged\n";

// No primary geometry.
const ONE_GEOMETRY: &[u8] = b"size ok\nmark ok\nstatuses ok\ncontrol ok\n\
    geometry primary bad magic\ngeometry backup ok\ngeometry ok\n\
    table a primary ok\ntable a backup ok\ntables ok\n\
    partitions ok\nstores ok\nstates ok\n";

// No geometry.
const NO_GEOMETRY: &[u8] = b"size ok\nmark ok\nstatuses ok\ncontrol ok\n\
    geometry primary bad magic\ngeometry backup bad magic\n\
    geometry no copy of the geometry passes, or super is too small\n\
    tables not judged\npartitions not judged\nstores not judged\nstates not judged\n";

// No primary table.
const ONE_TABLE: &[u8] = b"size ok\nmark ok\nstatuses ok\ncontrol ok\n\
    geometry primary ok\ngeometry backup ok\ngeometry ok\n\
    table a primary holds other bytes\ntable a backup ok\ntables ok\n\
    partitions ok\nstores ok\nstates ok\nopening repairs a primary\n";

// No table.
const NO_TABLE: &[u8] = b"size ok\nmark ok\nstatuses ok\ncontrol ok\n\
    geometry primary ok\ngeometry backup ok\ngeometry ok\n\
    table a primary no header\ntable a backup no header\n\
    tables slot a has no good table\n\
    partitions not judged\nstores not judged\nstates not judged\n";

// A disk of eight sectors.
const SMALL: &[u8] = b"size 8 sectors of 4120\nmark not judged\nstatuses not judged\n\
    control not judged\ngeometry not judged\ntables not judged\npartitions not judged\n\
    stores not judged\nstates not judged\n";

// What is said of a device whose sectors from here are zeros.
fn without(alloc: Global, sectors: &[u64]) -> Result<Vec<u8>, Fail> {
    let mut d = device_of_one(alloc)?;
    for at in sectors {
        if *at >= d.sectors() || d.write_sector(*at, &[0u8; 512]).is_err() {
            return Err("a sector is written".into());
        }
    }
    checked(alloc, &mut d)
}

#[test]
fn each_part_is_told_by_itself(rt: HostRuntime) -> Result<(), Fail> {
    let alloc = rt.alloc();
    let cases: [(&[u64], &[u8]); 7] = [
        (&[], FINE),
        (&[2048], NO_MARK),
        (&[4], NO_CONTROL),
        (&[4104], ONE_GEOMETRY),
        (&[4104, 4112], NO_GEOMETRY),
        (&[4120], ONE_TABLE),
        (&[4120, 4376], NO_TABLE),
    ];
    for (sectors, expected) in cases.iter() {
        let page = without(alloc, sectors)?;
        assert_eq!(rt; page.as_slice(), *expected);
    }
    Ok(())
}

// A whole device whose mark has version 1.
const OLD_MARK: &[u8] = b"size ok\nmark ok\nstatuses ok\ncontrol ok\n\
    geometry primary ok\ngeometry backup ok\ngeometry ok\n\
    table a primary ok\ntable a backup ok\ntables ok\n\
    partitions ok\nstores ok\nstates ok\nopening raises mark\n";

#[test]
fn a_mark_of_version_1_is_told(rt: HostRuntime) -> Result<(), Fail> {
    let alloc = rt.alloc();
    let mut d = device_of_one(alloc)?;
    let mut mark = [0u8; 512];
    mark[..5].copy_from_slice(b"VABU\x01");
    mark[508..].copy_from_slice(&[0xe7, 0x63, 0x71, 0xca]);
    assert!(rt; d.sectors() > 2048 && d.write_sector(2048, &mark).is_ok());
    let page = checked(alloc, &mut d)?;
    assert_eq!(rt; page.as_slice(), OLD_MARK);
    Ok(())
}

#[test]
fn a_disk_that_is_too_small(rt: HostRuntime) -> Result<(), Fail> {
    let alloc = rt.alloc();
    let d = MemPort::new(alloc, 8, Vec::new(alloc));
    let mut d = d.ok().ok_or("there is memory for a disk")?;
    let page = checked(alloc, &mut d)?;
    assert_eq!(rt; page.as_slice(), SMALL);
    Ok(())
}
