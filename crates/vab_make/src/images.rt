//! The blocks of the images.

ghost use Rattle.std.specs.Prelude.{◌≡◌, ◌<◌, ◌≤◌, ◌+◌, ◌*◌, ◌^◌, length, OnOk};
ghost use Rattle.vab_disk.specs.Calls.{IsBetween, InSectors, Touches, FailsWithDisk};
ghost use Rattle.vab_set.specs.Spelling.{IsSet};
ghost use Rattle.vab_make.specs.Made.{set_blocks};
ghost use Rattle.vab_make.specs.Steps.{block_of, HoldsBlocks, HoldsImages};

use crate::checks::FIRST;
use vab_disk::Disk;
use vab_gate::{DiskFault, put_block};
use vab_set::Set;
use vab_space::{BLOCK, blocks};

// A block of these bytes, filled up with zeros.
fn block_of(bytes: &[u8], k: usize) -> [u8; 4096]
    requires { k < 2 ^ 52 }
    ensures { result ≡ block_of bytes.now k }
{
    let mut block = [0u8; BLOCK];
    let start = (BLOCK * k).min(bytes.len());
    let rest = &bytes[start..];
    let piece = &rest[..rest.len().min(BLOCK)];
    block[..piece.len()].copy_from_slice(piece);
    block
}

// Writes these bytes into so many blocks from this sector on, with zeros behind them.
fn put_image<D: Disk>(d: &mut D, at: u64, count: u64, bytes: &[u8]) -> Result<(), DiskFault>
    requires { at + 8 * count ≤ D.size d.old }
    ensures holds { D.is_modelled → OnOk result (HoldsBlocks count at bytes.now (D.seen d.new)) }
    ensures touches { Touches D.Disk (InSectors (IsBetween at (at + 8 * count))) d.old d.new }
    ensures faults { FailsWithDisk D.Disk d.old d.new result }
{
    for k in 0..count {
        put_block(d, at + 8 * k, &block_of(bytes, k as usize))?;
    }
    Ok(())
}

// Writes the images, one after another.
pub fn put_images<D: Disk>(d: &mut D, set: &Set) -> Result<(), DiskFault>
    requires set { IsSet set.now }
    requires on_disk { 6144 + 8 * set_blocks set.now ≤ D.size d.old }
    ensures holds { D.is_modelled
        → OnOk result (HoldsImages (length set.now) set.now (D.seen d.new)) }
    ensures touches { Touches D.Disk
        (InSectors (IsBetween 6144 (6144 + 8 * set_blocks set.now))) d.old d.new }
    ensures faults { FailsWithDisk D.Disk d.old d.new result }
{
    let mut at = FIRST;
    for image in set.as_slice() {
        let count = blocks(image.size);
        put_image(d, at, count, image.bytes.as_slice())?;
        at += 8 * count;
    }
    Ok(())
}
