// What making a device writes, and what is refused.

ghost use Rattle.std.specs.Prelude.{◌<◌, ◌^◌};

use crate::devices::{device_of_one, set_of_one};
use std::alloc::Global;
use std::test::*;
use vab_disk::{Disk, MemPort};
use vab_make::{MakeFault, make_device};

fn port(alloc: Global, sectors: u64) -> Result<MemPort, Fail>
    requires { sectors < 2 ^ 55 }
{
    let port = MemPort::new(alloc, sectors, Vec::new(alloc));
    Ok(port.ok().ok_or("there is memory for a disk")?)
}

fn sector(d: &mut MemPort, at: u64) -> Result<[u8; 512], Fail> {
    let mut sector = [9u8; 512];
    if at < d.sectors() {
        d.read_sector(at, &mut sector)
            .ok()
            .ok_or("a sector is read")?;
    }
    Ok(sector)
}

#[test]
fn a_device_of_one_image(rt: HostRuntime) -> Result<(), Fail> {
    let mut d = device_of_one(rt.alloc())?;
    let block = sector(&mut d, 6144)?;
    assert!(rt; block.starts_with(b"abc") && block[3..].iter().all(|b| *b == 0));
    let control = sector(&mut d, 4)?;
    assert!(rt; control.starts_with(b"\x5f\x61\0\0BCAB\x01\x02\0\0\x8f\0"));
    Ok(())
}

#[test]
fn sets_are_refused_by_size(rt: HostRuntime) -> Result<(), Fail> {
    let alloc = rt.alloc();
    let set = set_of_one(alloc)?;
    let mut small = port(alloc, 6151)?;
    let few = make_device(alloc, &mut small, &set, 0, 65536);
    assert!(rt; few == Err(MakeFault::TooSmall(6152, 6151)));
    let mut d = port(alloc, 8192)?;
    let long = make_device(alloc, &mut d, &set, 0, 512);
    assert!(rt; long == Err(MakeFault::TableFull(540, 512)));
    let much = make_device(alloc, &mut d, &set, 4095, 512);
    assert!(rt; much == Err(MakeFault::GroupLimit(4096, 4095)));
    Ok(())
}
