// What making a device and its commands leave of a disk whose bytes are all ff.

use crate::devices::{SECTORS, reply, set_of_one};
use std::alloc::Global;
use std::test::*;
use vab_disk::{Disk, MemPort};
use vab_make::make_device;
use vab_model::Command;

// A disk of bytes ff, with nothing pending.
fn disk_of_ones(alloc: Global) -> Result<MemPort, Fail> {
    let d = MemPort::new(alloc, SECTORS, Vec::new(alloc));
    let mut d = d.ok().ok_or("there is memory for a disk")?;
    for at in 0..SECTORS {
        if at >= d.sectors() || d.write_sector(at, &[0xff; 512]).is_err() {
            return Err("a sector is written".into());
        }
    }
    match d.sync() {
        Ok(()) => Ok(d.next_run(Vec::new(alloc))),
        Err(_) => Err("the disk is synced".into()),
    }
}

// Whether a device of one block, with tables of up to 65536 bytes, has a place there: boot control,
// the mark, both geometries and the primary of slot a's table, its backup, the block.
fn is_of_the_device(at: u64) -> bool {
    at == 4
        || at == 2048
        || (4104 <= at && at < 4248)
        || (4376 <= at && at < 4504)
        || (6144 <= at && at < 6152)
}

// The bytes of a sector from this one on that are all ff.
fn is_of_ones(d: &mut MemPort, at: u64, from: usize) -> bool {
    let mut sector = [0u8; 512];
    if at >= d.sectors() || d.read_sector(at, &mut sector).is_err() {
        return false;
    }
    for byte in sector.iter().skip(from) {
        if *byte != 0xff {
            return false;
        }
    }
    true
}

// The first sector beside the device's that isn't ff any more.
fn first_changed(d: &mut MemPort) -> Option<u64> {
    for at in 0..SECTORS {
        if !is_of_the_device(at) && !is_of_ones(d, at, 0) {
            return Some(at);
        }
    }
    None
}

#[test]
fn all_sectors_but_the_devices_stay(rt: HostRuntime) -> Result<(), Fail> {
    let alloc = rt.alloc();
    let mut d = disk_of_ones(alloc)?;
    assert!(rt; make_device(alloc, &mut d, &set_of_one(alloc)?, 0, 65536).is_ok());
    for command in [Command::Boot, Command::Mark, Command::SetActive(0)] {
        assert!(rt; reply(alloc, &mut d, &command).is_some());
    }
    assert!(rt; first_changed(&mut d) == None);
    assert!(rt; is_of_ones(&mut d, 4, 32));
    let mut d = d.next_run(Vec::new(alloc));
    assert!(rt; first_changed(&mut d) == None);
    Ok(())
}
