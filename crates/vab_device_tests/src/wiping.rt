// Wipes of `super` on a device of one image.

ghost use Rattle.std.specs.Prelude.{◌+◌, ◌<◌, ◌^◌};

use crate::devices::{SECTORS, device_of_one, reply_staged};
use std::alloc::Global;
use std::test::*;
use vab_disk::{Blend, Disk, MemPort};
use vab_make::make_device;
use vab_model::{Command, Refusal, Reply};
use vab_recover::probe;
use vab_set::read_set;

// The first sectors of a geometry and of slot a's primary table.
const GEOMETRY: u64 = 4104;

const TABLE: u64 = 4120;

// No image.
const NONE: [u8; 12] = [b'V', b'A', b'B', b'S', b'E', b'T', b'1', b'\n', 0, 0, 0, 0];

// A disk with the device of no image.
fn empty_device(alloc: Global) -> Result<MemPort, Fail> {
    let d = MemPort::new(alloc, SECTORS, Vec::new(alloc));
    let mut d = d.ok().ok_or("there is memory for a disk")?;
    let set = match read_set(alloc, &NONE) {
        Ok(set) => set,
        Err(_) => return Err("the bytes are a set".into()),
    };
    match make_device(alloc, &mut d, &set, 0, 65536) {
        Ok(()) => Ok(d),
        Err(_) => Err("a device is made".into()),
    }
}

// Puts so many sectors of a disk behind these bytes.
fn put_sectors(d: &mut MemPort, at: u64, count: u64, out: &mut Vec<u8>) -> Result<(), Fail>
    requires { at + count < 2 ^ 64 }
{
    for i in 0..count {
        let mut sector = [0u8; 512];
        if at + i >= d.sectors() || d.read_sector(at + i, &mut sector).is_err() {
            return Err("a sector is read".into());
        }
        out.extend_from_slice(&sector)?;
    }
    Ok(())
}

// The image of an empty `super` for such a device: its geometry, and a table without partitions.
fn super_image(alloc: Global) -> Result<Vec<u8>, Fail> {
    let mut d = empty_device(alloc)?;
    let mut image = Vec::new(alloc);
    put_sectors(&mut d, GEOMETRY, 8, &mut image)?;
    put_sectors(&mut d, TABLE, 1, &mut image)?;
    Ok(image)
}

// How many images slot a has, where the disk is a device.
fn images(alloc: Global, d: &mut MemPort) -> Option<usize> {
    match probe(alloc, d) {
        Ok(device) => device.a.map(|parts| parts.len()),
        Err(_) => None,
    }
}

#[test]
fn a_wipe_leaves_the_slot_without_images(rt: HostRuntime) -> Result<(), Fail> {
    let alloc = rt.alloc();
    let image = super_image(alloc)?;
    let mut d = device_of_one(alloc)?;
    let wipe = Command::UpdateSuper;
    let short = reply_staged(alloc, &mut d, &wipe, Some(b"short"));
    assert!(rt; short == Some(Reply::Refused(Refusal::BadSuperImage)));
    assert!(rt; images(alloc, &mut d) == Some(1));
    assert!(rt; reply_staged(alloc, &mut d, &wipe, Some(&image)) == Some(Reply::Done));
    assert!(rt; images(alloc, &mut d) == Some(0));
    Ok(())
}

#[test]
fn a_wipe_that_is_cut_leaves_all_images_or_none(rt: HostRuntime) -> Result<(), Fail> {
    let alloc = rt.alloc();
    let image = super_image(alloc)?;
    for stop in 0..16u64 {
        for blend in [Blend::Old, Blend::New, Blend::Even, Blend::Odd] {
            let mut d = device_of_one(alloc)?;
            d.stop_after(stop);
            let reply = reply_staged(alloc, &mut d, &Command::UpdateSuper, Some(&image));
            let left = d.outcome(blend);
            let mut left = left.ok().ok_or("there is memory for a disk")?;
            let images = images(alloc, &mut left);
            assert!(rt; images == Some(0) || images == Some(1) && reply.is_none());
        }
    }
    Ok(())
}
