//! A block that is written over the overlaid partition.

ghost use Rattle.std.specs.Prelude.{◌≡◌, ℕ, ◌<◌, List, Option, Some, length, IfOk, IfErr, IsSome};
ghost use Rattle.std.specs.Prelude.{option_map};
ghost use Rattle.vab_disk.specs.Calls.{InSectors};
ghost use Rattle.vab_disk.specs.Disk.{Image};
ghost use Rattle.vab_space.specs.declared.Chunk.TheVariants.{One};
ghost use Rattle.vab_store.specs.Layout.{IsApart};
ghost use Rattle.vab_overlay.specs.Overlaid.{MayOverlay};
ghost use Rattle.vab_model.specs.Commands.{OverlayWrite};
ghost use Rattle.vab_model.specs.Effects.{refuses};
ghost use Rattle.vab_device.specs.declared.device.PartImage.TheVariants as images;
ghost use Rattle.vab_device.specs.Does.{Does};
ghost use Rattle.vab_device.specs.Kept.{IsDevice};
ghost use Rattle.vab_device.specs.Mounted.{blocks_there, mounted_on};
ghost use Rattle.vab_device.specs.Reading.{Represents};
ghost use Rattle.vab_device.specs.Updates.{effect_on};
ghost use Rattle.vab_overlaying.specs.Over.{with_list, IsStaged, PutsOver};
ghost use Rattle.vab_device.specs.Mounted.{exceptions_in};
ghost use Rattle.vab_overlaying.specs.Writes.{IsOfOverlaid};

use vab_device::{Device, Part, PartImage};
use vab_disk::Disk;
use vab_gate::DiskFault;
use vab_model::{Refusal, Reply};
use vab_overlay::OverlayFault;
use vab_space::BLOCK;

// Writes a block over a partition, into its store.
fn put_over<D: Disk>(
    d: &mut D,
    part: &mut Part,
    block: u64,
    from: &[u8; 4096],
) -> Result<(), OverlayFault>
    requires stored { IsSome part.old.store }
    requires written { part.old.image ≡ images.Written One (exceptions_in part.old.image) }
    requires may { MayOverlay (blocks_there part.old.store) (exceptions_in part.old.image) block
        (D.size d.old) }
    requires apart { D.is_modelled → IsApart (blocks_there part.old.store) }
    ensures part { part.new ≡ with_list part.old (exceptions_in part.new.image) }
    ensures puts { PutsOver D.Disk (blocks_there part.old.store) (exceptions_in part.old.image)
        (exceptions_in part.new.image) block from.now d.old d.new result }
{
    let store = match &part.store {
        Some(store) => store,
        None => unreachable!(),
    };
    match &mut part.image {
        PartImage::Kept => unreachable!(),
        PartImage::Declared => unreachable!(),
        PartImage::Written(_, view) => vab_overlay::overlay_write(d, store, view, block, from),
    }
}

// The staged bytes of a block of the overlaid partition, or the first refusal.
fn block_staged<'a>(
    device: &Device,
    staged: Option<&'a [u8]>,
    block: u64,
) -> Result<&'a [u8], Refusal>
    ensures staged { IfOk result
        (λ b. IsStaged device.now (option_map (λ s. s.now) staged.entry) block b.now) }
    ensures refused { (size : ℕ) (image : Image)
        → IsDevice device.now size
        → ((s : ℕ) → s < size → length (image s) ≡ 512)
        → IfErr result
        (λ r. effect_on (mounted_on device.now image) (option_map (λ s. s.now) staged.entry)
        (OverlayWrite block)
        ≡ refuses r) }
{
    let blocks = match &device.overlay {
        Some(part) => part.map.len(),
        None => return Err(Refusal::NotOverlaid),
    };
    let bytes = match staged {
        Some(bytes) => bytes,
        None => return Err(Refusal::NothingStaged),
    };
    if bytes.len() != BLOCK {
        return Err(Refusal::BadLength(bytes.len() as u64));
    }
    if block >= blocks {
        return Err(Refusal::BadBlock(block, blocks));
    }
    Ok(bytes)
}

// Writes the staged block over the overlaid partition.
fn write_block<D: Disk>(
    d: &mut D,
    device: Device,
    block: u64,
    bytes: &[u8],
) -> Result<(Device, Reply), DiskFault>
    requires kept { IsDevice device (D.size d.old) }
    requires represents { D.is_modelled → Represents device (D.size d.old) (D.seen d.old) }
    requires staged { IsStaged device (Some bytes.now) block bytes.now }
    ensures { Does D.Disk device (Some bytes.now) (OverlayWrite block)
        (InSectors (IsOfOverlaid device)) d.old d.new result }
{
    let mut from = [0; BLOCK];
    from.copy_from_slice(bytes);
    let mut device = device;
    let part = match &mut device.overlay {
        Some(part) => part,
        None => unreachable!(),
    };
    match put_over(d, part, block, &from) {
        Ok(()) => Ok((device, Reply::Done)),
        Err(OverlayFault::Full(needed, have)) => {
            Ok((device, Reply::Refused(Refusal::StoreFull(needed, have))))
        }
        Err(OverlayFault::NoMemory) => Ok((device, Reply::Refused(Refusal::NoMemory))),
        Err(OverlayFault::DiskFault) => Err(DiskFault),
    }
}

/// Writes the staged bytes, a block of 4096, over the overlaid partition: into its store, to be
/// read in place of the partition's own block. Refused with `NotOverlaid` where there is no
/// overlay, with `NothingStaged`, with `BadLength` where the staged bytes are no block, with
/// `BadBlock` behind the partition's end, with `StoreFull` where the store has no room for one
/// exception more, and with `NoMemory` before anything is written. The error comes where the disk
/// has failed.
pub fn overlay_write<D: Disk>(
    d: &mut D,
    device: Device,
    staged: Option<&[u8]>,
    block: u64,
) -> Result<(Device, Reply), DiskFault>
    requires kept { IsDevice device (D.size d.old) }
    requires represents { D.is_modelled → Represents device (D.size d.old) (D.seen d.old) }
    ensures { Does D.Disk device (option_map (λ s. s.now) staged.entry) (OverlayWrite block)
        (InSectors (IsOfOverlaid device)) d.old d.new result }
{
    match block_staged(&device, staged, block) {
        Err(refusal) => Ok((device, Reply::Refused(refusal))),
        Ok(bytes) => write_block(d, device, block, bytes),
    }
}
