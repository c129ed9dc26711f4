//! The bytes of an image, written out.

ghost use Rattle.std.specs.Prelude.{◌≡◌, ◌<◌, IsErrOf};
ghost use Rattle.vab_disk.specs.Disk.{DiskFailed};
ghost use Rattle.vab_disk.specs.Calls.{OnlyReads};
ghost use Rattle.vab_device.specs.Kept.{IsDevice};
ghost use Rattle.vab_manager.specs.Blocks.{HasBlock};

use std::io::Write;
use vab_device::Device;
use vab_disk::Disk;
use vab_manager::{kept_part, read_block};

/// Why an image isn't written out.
#[derive(Clone, Copy, Debug, PartialEq, Eq)]
pub enum CopyFault {
    /// The disk has failed.
    Disk,
    /// The output has failed.
    Output,
}

// Writes a block of an image.
fn copy_block<D: Disk, W: Write>(
    d: &mut D,
    device: &Device,
    slot: usize,
    name: &[u8],
    block: u64,
    out: &mut W,
) -> Result<(), CopyFault>
    requires kept { IsDevice device.now (D.size d.old) }
    requires slot { slot < 2 }
    requires block { HasBlock device.now slot name.now block }
    ensures reads { OnlyReads D.Disk d.old d.new }
    ensures cause { IsErrOf result CopyFault.Disk
        → DiskFailed (D.faults d.old) (D.faults d.new) }
{
    let mut bytes = [0u8; 4096];
    match read_block(d, device, slot, name, block, &mut bytes) {
        Ok(()) => {}
        Err(_) => return Err(CopyFault::Disk),
    }
    match out.write_all(&bytes) {
        Ok(()) => Ok(()),
        Err(_) => Err(CopyFault::Output),
    }
}

/// Writes the image of a slot under a base name, block by block; nothing where there is none.
pub fn copy_image<D: Disk, W: Write>(
    d: &mut D,
    device: &Device,
    slot: usize,
    name: &[u8],
    out: &mut W,
) -> Result<(), CopyFault>
    requires kept { IsDevice device.now (D.size d.old) }
    requires slot { slot < 2 }
    ensures reads { OnlyReads D.Disk d.old d.new }
{
    let blocks = match kept_part(device, slot, name) {
        None => return Ok(()),
        Some(part) => part.map.len(),
    };
    for block in 0..blocks {
        copy_block(d, device, slot, name, block, out)?;
    }
    Ok(())
}
