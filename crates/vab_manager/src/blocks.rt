//! A block of an image.

ghost use Rattle.std.specs.Prelude.{◌≡◌, ℕ, ◌≤◌, ◌<◌, ◌^◌, length, slice_index, IsTrue, IfOk};
ghost use Rattle.std.specs.Prelude.{IfErr, OnOk};
ghost use Rattle.std.specs.Option.{option_copied};
ghost use Rattle.vab_disk.specs.Calls.{FailsWithDisk, OnlyReads};
ghost use Rattle.vab_disk.specs.Disk.{Image};
ghost use Rattle.vab_gate.specs.Gate.{sectors_at};
ghost use Rattle.vab_names.specs.Names.{is_full, base_of};
ghost use Rattle.vab_model.specs.declared.state.Image.{Image as ImageOfSlot};
ghost use Rattle.vab_model.specs.Effects.{found_of, Image_is, Refused_by};
ghost use Rattle.vab_device.specs.declared.device.Part.{Part};
ghost use Rattle.vab_device.specs.Kept.{IsDevice};
ghost use Rattle.vab_device.specs.Mounted.{bytes_at, sectors_read, state_on};
ghost use Rattle.vab_manager.specs.Blocks.{slot_named, part_read, KeepsPart, HasBlock, IsBlockOf};

use crate::images::{as_read, find, part_named};
use crate::reading::read_part;
use vab_device::{Device, Part};
use vab_disk::Disk;
use vab_gate::DiskFault;
use vab_model::Refusal;
use vab_names::is_full;

// The slot of a name's suffix.
fn slot_named(name: &[u8]) -> usize
    ensures { result ≡ slot_named name.now }
{
    if is_full(name, 0) { 0 } else { 1 }
}

/// The partition that is kept under a base name of a slot, as it is read: with its store, where it
/// is overlaid.
pub fn kept_part<'a>(device: &'a Device, slot: usize, name: &[u8]) -> Option<&'a Part>
    requires { slot < 2 }
    ensures { option_copied result ≡ part_read device.now slot name.now }
{
    let parts = device.images(slot)?;
    match part_named(parts, name) {
        Some(part) => Some(as_read(device, part)),
        None => None,
    }
}

/// Where the image of a whole name stands: its slot, and how many blocks of 4096 bytes it has; or
/// why there is none.
pub fn locate(device: &Device, name: &[u8]) -> Result<(usize, u64), Refusal>
    requires kept { (size : ℕ) × IsDevice device.now size }
    ensures part { IfOk result
        (λ r. (r.0 < 2)
        × (2 ≤ length name.now)
        × (p : Part)
        × KeepsPart device.now r.0 (base_of name.now) p
        × (r.1 ≡ length p.map)) }
    ensures suffix { IfOk result (λ r. IsTrue (is_full r.0 name.now)) }
    ensures small { IfOk result (λ r. r.1 < 2 ^ 60) }
    ensures image { (seen : Image) → IfOk result
        (λ r. (i : ImageOfSlot)
        × (found_of (state_on device.now seen) name.now ≡ Image_is i)
        × (p : Part)
        × KeepsPart device.now r.0 (base_of name.now) p
        × (i.bytes ≡ bytes_at seen (sectors_read p))) }
    ensures refused { (seen : Image) → IfErr result
        (λ f. found_of (state_on device.now seen) name.now ≡ Refused_by f) }
{
    match find(device, name) {
        Ok(part) => Ok((slot_named(name), part.map.len())),
        Err(refusal) => Err(refusal),
    }
}

/// Reads a block of the image of a base name in a slot. The error comes where the disk has failed.
pub fn read_block<D: Disk>(
    d: &mut D,
    device: &Device,
    slot: usize,
    name: &[u8],
    block: u64,
    out: &mut [u8; 4096],
) -> Result<(), DiskFault>
    requires kept { IsDevice device.now (D.size d.old) }
    requires slot { slot < 2 }
    requires block { HasBlock device.now slot name.now block }
    // the block where a read of the partition takes it from, its store or its own blocks
    ensures sectors { D.is_modelled
        → (p : Part)
        → KeepsPart device.now slot name.now p
        → OnOk result
        (out.new ≡ sectors_at 8 (D.seen d.old) (slice_index (sectors_read p) block)) }
    // which is that block of the image
    ensures bytes { D.is_modelled
        → OnOk result (IsBlockOf (state_on device.now (D.seen d.old)) slot name.now block out.new) }
    ensures reads { OnlyReads D.Disk d.old d.new }
    ensures faults { FailsWithDisk D.Disk d.old d.new result }
{
    match kept_part(device, slot, name) {
        Some(part) => read_part(d, part, block, out),
        None => unreachable!(),
    }
}
