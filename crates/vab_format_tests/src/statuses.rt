// Statuses on a disk in memory.

use std::test::*;
use vab_bytes::Name36;
use vab_disk::{Disk, MemPort};
use vab_marks::{MarkVersion, PartStatus, StatusImage};
use vab_space::Chunk;
use vab_statuses::{
    StatusFault, Statuses, clear_statuses, first_free, free_or_last, put_status, read_statuses,
};

fn status(name: &[u8], count: u64) -> Result<PartStatus, Fail> {
    let name = Name36::parse(name).ok().ok_or("a name is parsed")?;
    Ok(PartStatus {
        name,
        image: StatusImage::Stored {
            count,
            chunk: Chunk::One,
        },
    })
}

// Puts a status into the first free sector, and answers that sector.
fn put<D: Disk>(d: &mut D, status: &PartStatus) -> Option<u64> {
    if d.sectors() < 2113 {
        return None;
    }
    let at = match first_free(d) {
        Ok(Some(at)) => at,
        _ => return None,
    };
    match put_status(d, at, status) {
        Ok(()) => Some(at),
        Err(_) => None,
    }
}

// What the sectors hold, where the disk has them.
fn read<D: Disk>(d: &mut D) -> Option<Result<Statuses, StatusFault>> {
    read_under(d, MarkVersion::Two)
}

// The same under a version of the mark.
fn read_under<D: Disk>(d: &mut D, version: MarkVersion) -> Option<Result<Statuses, StatusFault>> {
    if d.sectors() < 2113 {
        return None;
    }
    Some(read_statuses(d, version))
}

// The statuses that stand in the first two sectors, or the bad sector.
fn first_two<D: Disk>(d: &mut D) -> Option<Result<[Option<PartStatus>; 2], StatusFault>> {
    match read(d)? {
        Ok(statuses) => {
            let all = statuses.as_slice();
            if all.len() < 2 {
                return None;
            }
            Some(Ok([all[0], all[1]]))
        }
        Err(fault) => Some(Err(fault)),
    }
}

#[test]
fn statuses_are_put_into_free_sectors(rt: HostRuntime) -> Result<(), Fail> {
    let port = MemPort::new(rt.alloc(), 2113, Vec::new(rt.alloc()));
    let mut d = port.ok().ok_or("there is memory for a disk")?;
    let system = status(b"system_b", 3)?;
    let vendor = status(b"vendor_b", 0)?;
    assert!(rt; first_two(&mut d) == Some(Ok([None, None])));
    // A second status of one name is in the third sector.
    for (status, at, found) in [
        (system, 2049, Ok([Some(system), None])),
        (vendor, 2050, Ok([Some(system), Some(vendor)])),
        (system, 2051, Err(StatusFault::Bad(2051))),
    ] {
        assert!(rt; put(&mut d, &status) == Some(at));
        assert!(rt; first_two(&mut d) == Some(found));
    }
    assert!(rt; d.sectors() == 2113 && clear_statuses(&mut d).is_ok());
    assert!(rt; first_two(&mut d) == Some(Ok([None, None])));
    Ok(())
}

// Writes a sector of the disk.
fn write<D: Disk>(d: &mut D, at: u64, bytes: &[u8; 512]) -> bool {
    at < d.sectors() && d.write_sector(at, bytes).is_ok()
}

#[test]
fn version_1_has_the_first_32_statuses(rt: HostRuntime) -> Result<(), Fail> {
    let port = MemPort::new(rt.alloc(), 2113, Vec::new(rt.alloc()));
    let mut d = port.ok().ok_or("there is memory for a disk")?;
    let system = status(b"system_b", 3)?;
    assert!(rt; put(&mut d, &system) == Some(2049));
    // Whether the sector is bad under version 1.
    for (at, is_bad) in [(2080, true), (2081, false), (2112, false)] {
        assert!(rt; write(&mut d, at, &[1; 512]));
        let one = read_under(&mut d, MarkVersion::One);
        assert!(rt; matches!(one, Some(Err(_))) == is_bad, "{at}");
        assert!(rt; matches!(read(&mut d), Some(Err(StatusFault::Bad(bad))) if bad == at));
        assert!(rt; write(&mut d, at, &[0; 512]));
    }
    let one = read_under(&mut d, MarkVersion::One);
    let statuses = one
        .ok_or("there are sectors")?
        .map_err(|_| Fail::from("statuses"))?;
    assert!(rt; statuses.as_slice().len() == 64);
    assert!(rt; statuses.as_slice().first() == Some(&Some(system)));
    Ok(())
}

// The sector for the next status, where the disk has them.
fn next<D: Disk>(d: &mut D) -> Option<u64> {
    if d.sectors() < 2113 {
        return None;
    }
    free_or_last(d).ok()
}

#[test]
fn where_no_sector_is_free_it_is_the_last(rt: HostRuntime) -> Result<(), Fail> {
    let port = MemPort::new(rt.alloc(), 2113, Vec::new(rt.alloc()));
    let mut d = port.ok().ok_or("there is memory for a disk")?;
    assert!(rt; next(&mut d) == Some(2049));
    for at in 2049..2113 {
        assert!(rt; write(&mut d, at, &[1; 512]));
    }
    assert!(rt; next(&mut d) == Some(2112));
    assert!(rt; write(&mut d, 2100, &[0; 512]));
    assert!(rt; next(&mut d) == Some(2100));
    Ok(())
}
