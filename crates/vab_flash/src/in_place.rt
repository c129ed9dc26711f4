//! An image that is written into the own blocks of a planned partition.

ghost use Rattle.std.specs.Prelude.{Some};
ghost use Rattle.vab_disk.specs.Calls.{InSectors, Touches};
ghost use Rattle.vab_space.specs.declared.Chunk.{Chunk as ChunkOf};
ghost use Rattle.vab_statuses.specs.Statuses.{IsOfStatuses, IsFirstFree};
ghost use Rattle.vab_model.specs.Commands.{Flash};
ghost use Rattle.vab_device.specs.Does.{Does};
ghost use Rattle.vab_device.specs.Kept.{IsDevice};
ghost use Rattle.vab_device.specs.Reading.{Represents};
ghost use Rattle.vab_flash.specs.Chosen.{IsChosen};
ghost use Rattle.vab_flash.specs.Touched.{IsOfFlash, IsFreeOrOther};

use crate::chosen::{Destination, planned_at};
use crate::plan::written;
use std::alloc::Global;
use vab_device::Device;
use vab_disk::Disk;
use vab_gate::DiskFault;
use vab_install::write_image;
use vab_marks::{PartStatus, StatusImage};
use vab_model::Reply;
use vab_names::full_name;
use vab_space::Chunk;
use vab_statuses::{free_or_last, put_status};
use vab_store::StoreView;

// Writes the image of the planned partition at a place, and its status into this free sector.
fn place_image<D: Disk>(
    alloc: Global,
    d: &mut D,
    device: Device,
    name: &[u8],
    place: usize,
    bytes: &[u8],
    free: u64,
) -> Result<(Device, Reply), DiskFault>
    requires kept { IsDevice device (D.size d.old) }
    requires represents { D.is_modelled → Represents device (D.size d.old) (D.seen d.old) }
    requires chosen { IsChosen device name.now (Some bytes.now) place Destination.Blocks
        bytes.now }
    requires there { IsOfStatuses free }
    requires free { D.is_modelled → IsFirstFree (D.seen d.old) (Some free) }
    ensures does { (chunk : ChunkOf)
        → Does D.Disk device (Some bytes.now) (Flash name.now chunk) (IsOfFlash device name.now)
        d.old d.new result }
    ensures free { D.is_modelled
        → Touches D.Disk (InSectors (IsFreeOrOther (D.seen d.old))) d.old d.new }
{
    match write_image(d, &planned_at(&device, place).map, bytes) {
        Err(fault) => Err(fault),
        Ok(()) => {
            let status = PartStatus {
                name: full_name(&planned_at(&device, place).name, 1 - device.mark.slot),
                image: StatusImage::InPlace,
            };
            match put_status(d, free, &status) {
                Ok(()) => {
                    let view = StoreView::empty(alloc);
                    Ok((written(device, place, Chunk::One, view), Reply::Done))
                }
                Err(fault) => Err(fault),
            }
        }
    }
}

/// The staged bytes become the image of the planned partition at a place, in its own blocks, with
/// zeros behind them; and behind a sync its status the first free sector. There is one: each status
/// is of another partition of the target. Takes no memory.
pub fn flash_in_place<D: Disk>(
    alloc: Global,
    d: &mut D,
    device: Device,
    name: &[u8],
    place: usize,
    bytes: &[u8],
) -> Result<(Device, Reply), DiskFault>
    requires kept { IsDevice device (D.size d.old) }
    requires represents { D.is_modelled → Represents device (D.size d.old) (D.seen d.old) }
    requires chosen { IsChosen device name.now (Some bytes.now) place Destination.Blocks
        bytes.now }
    // Chunks are those of stores: the size that was asked for changes nothing.
    ensures does { (chunk : ChunkOf)
        → Does D.Disk device (Some bytes.now) (Flash name.now chunk) (IsOfFlash device name.now)
        d.old d.new result }
    // Of the sectors of the statuses it writes the first free one alone.
    ensures free { D.is_modelled
        → Touches D.Disk (InSectors (IsFreeOrOther (D.seen d.old))) d.old d.new }
{
    match free_or_last(d) {
        Ok(free) => place_image(alloc, d, device, name, place, bytes, free),
        Err(fault) => Err(fault),
    }
}
