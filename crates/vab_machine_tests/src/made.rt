// Disks in memory with a device that is made of small images.

ghost use Rattle.std.specs.Prelude.{◌≡◌, ◌≤◌, ◌<◌, ◌%◌, ◌^◌};

use std::alloc::Global;
use std::test::*;
use vab_disk::MemPort;
use vab_make::make_device;
use vab_set::read_set;

// Appends an image of so many blocks, block i filled with the byte i.
fn push_image(set: &mut Vec<u8>, name: &[u8], blocks: u8) -> Result<(), Fail> {
    let size = 4096 * u64::from(blocks);
    set.push(name.len().min(255) as u8)?;
    set.extend_from_slice(name)?;
    for number in [size, 0, size] {
        set.extend_from_slice(&number.to_le_bytes())?;
    }
    for block in 0..blocks {
        for _i in 0..4096u32 {
            set.push(block)?;
        }
    }
    Ok(())
}

// Makes a device of a set on a disk of so many blocks.
fn made_of(alloc: Global, cap: u16, limit: u64, max: u32, set: &[u8]) -> Result<MemPort, Fail>
    requires limit { limit ≤ 2 ^ 44 }
    requires max_sectors { max % 512 ≡ 0 }
    requires max_least { 512 ≤ max }
    requires max_most { max ≤ 65536 }
{
    let d = MemPort::new(alloc, 6144 + 8 * u64::from(cap), Vec::new(alloc));
    let mut d = d.ok().ok_or("there is memory for a disk")?;
    let Ok(set) = read_set(alloc, set) else {
        return Err("the bytes are a set".into());
    };
    match make_device(alloc, &mut d, &set, limit, max) {
        Ok(()) => Ok(d.next_run(Vec::new(alloc))),
        Err(_) => Err("a device is made".into()),
    }
}

/// A device of one image of so many blocks on a disk of `cap`, with this limit of the group `main`
/// and this most of a table's text.
pub(crate) fn made(
    alloc: Global,
    cap: u16,
    limit: u64,
    max: u32,
    name: &[u8],
    blocks: u8,
) -> Result<MemPort, Fail>
    requires limit { limit ≤ 2 ^ 44 }
    requires max_sectors { max % 512 ≡ 0 }
    requires max_least { 512 ≤ max }
    requires max_most { max ≤ 65536 }
{
    let mut set = Vec::from_slice(alloc, b"VABSET1\n\x01\0\0\0")?;
    push_image(&mut set, name, blocks)?;
    made_of(alloc, cap, limit, max, &set)
}

/// The same of two images, `s` of four blocks and `v` of two.
pub(crate) fn made_of_two(alloc: Global, cap: u16, limit: u64, max: u32) -> Result<MemPort, Fail>
    requires limit { limit ≤ 2 ^ 44 }
    requires max_sectors { max % 512 ≡ 0 }
    requires max_least { 512 ≤ max }
    requires max_most { max ≤ 65536 }
{
    let mut set = Vec::from_slice(alloc, b"VABSET1\n\x02\0\0\0")?;
    push_image(&mut set, b"s", 4)?;
    push_image(&mut set, b"v", 2)?;
    made_of(alloc, cap, limit, max, &set)
}
