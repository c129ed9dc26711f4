//! The staged bytes become the image of a planned partition.

ghost use Rattle.std.specs.Prelude.{◌≡◌, ◌≤◌, ◌<◌, ◌^◌, Some, length, Ok, IfOk, OnOk, IsSome};
ghost use Rattle.std.specs.Prelude.{IfSome, option_map};
ghost use Rattle.vab_disk.specs.Calls.{IsAtRest, InSectors, Touches};
ghost use Rattle.vab_space.specs.Chunks.{chunks_for, need_at};
ghost use Rattle.vab_store.specs.Layout.{IsOnDisk, IsApart, AreDisjoint, InFirst};
ghost use Rattle.vab_store.specs.Scan.{scan_of};
ghost use Rattle.vab_store.specs.View.{Fits};
ghost use Rattle.vab_store.specs.Writing.{planned_of};
ghost use Rattle.vab_statuses.specs.Statuses.{IsOfStatuses, IsFirstFree};
ghost use Rattle.vab_install.specs.Differing.{AscendsBelow};
ghost use Rattle.vab_install.specs.Snapshot.{HoldsBlocks};
ghost use Rattle.vab_install.specs.Counts.{CountsFaults, ReadsWithout};
ghost use Rattle.vab_model.specs.Commands.{Flash};
ghost use Rattle.vab_device.specs.Does.{Does};
ghost use Rattle.vab_device.specs.Kept.{IsDevice};
ghost use Rattle.vab_device.specs.Reading.{Represents};
ghost use Rattle.vab_flash.specs.Chosen.{base_of_place, differing_at};
ghost use Rattle.vab_flash.specs.Chosen.{store_at, store_long, IsChosen, IsListed};
ghost use Rattle.vab_flash.specs.Place.{plan_or, planned_at};
ghost use Rattle.vab_flash.specs.Touched.{IsOfFlash, IsFreeOrOther};

use crate::chosen::{Destination, choose, planned_at};
use crate::found::{find_differing, store_blocks};
use crate::in_place::flash_in_place;
use crate::plan::written;
use std::alloc::Global;
use vab_device::Device;
use vab_disk::Disk;
use vab_gate::DiskFault;
use vab_install::{Differing, PartFault, write_snapshot};
use vab_marks::{PartStatus, StatusImage};
use vab_model::{Refusal, Reply};
use vab_names::full_name;
use vab_space::{Chunk, need_at};
use vab_statuses::{first_free, put_status};
use vab_store::StoreView;

// Writes these chunks of an image into the store of the planned partition at a place, and syncs.
fn write_place<D: Disk>(
    alloc: Global,
    d: &mut D,
    device: &Device,
    place: usize,
    bytes: &[u8],
    olds: &[u64],
    chunk: Chunk,
) -> Result<StoreView, PartFault>
    requires place { place < length (plan_or device.now.plan) }
    requires has_store { IsSome (planned_at device.now place).store }
    requires on_disk { IsOnDisk (store_at device.now place) (D.size d.old) }
    requires apart { D.is_modelled → IsApart (store_at device.now place) }
    requires disjoint { D.is_modelled
        → AreDisjoint (base_of_place device.now place) (store_at device.now place) }
    requires listed { IsListed chunk device.now place olds.now }
    requires exact { D.is_modelled
        → olds.now ≡ differing_at chunk device.now place (D.seen d.old) bytes.now }
    ensures planned { IfOk result (λ v. v ≡ planned_of chunk olds.now) }
    ensures scanned { D.is_modelled → IfOk result
        (λ v. scan_of chunk (store_at device.now place) (length (planned_at device.now place).map)
        (D.seen d.new)
        ≡ Ok v) }
    ensures holds { D.is_modelled → IfOk result
        (λ v. HoldsBlocks chunk (base_of_place device.now place) (store_at device.now place) v
        (D.seen d.new) bytes.now (length (planned_at device.now place).map)) }
    ensures settled { D.is_modelled → OnOk result (IsAtRest D.Disk d.new) }
    ensures fits { IfOk result
        (λ v. Fits chunk (length (planned_at device.now place).map) (store_at device.now place) v) }
    ensures touches { Touches D.Disk
        (InSectors (InFirst (store_at device.now place) (need_at (length olds.now) chunk))) d.old
        d.new }
    ensures unwritten { ReadsWithout D.Disk d.old d.new result }
    ensures counts { CountsFaults D.Disk d.old d.new result }
{
    match &planned_at(device, place).store {
        Some(store) => write_snapshot(alloc, d, store, bytes, olds, chunk),
        None => unreachable!(),
    }
}

// Writes the image of the planned partition at a place, and its status into this free sector.
fn store_image<D: Disk>(
    alloc: Global,
    d: &mut D,
    device: Device,
    name: &[u8],
    place: usize,
    bytes: &[u8],
    olds: &[u64],
    chunk: Chunk,
    free: u64,
) -> Result<(Device, Reply), DiskFault>
    requires kept { IsDevice device (D.size d.old) }
    requires represents { D.is_modelled → Represents device (D.size d.old) (D.seen d.old) }
    requires chosen { IsChosen device name.now (Some bytes.now) place Destination.Store bytes.now }
    requires listed { IsListed chunk device place olds.now }
    requires exact { D.is_modelled
        → olds.now ≡ differing_at chunk device place (D.seen d.old) bytes.now }
    requires there { IsOfStatuses free }
    requires free { D.is_modelled → IsFirstFree (D.seen d.old) (Some free) }
    ensures does { Does D.Disk device (Some bytes.now) (Flash name.now chunk)
        (IsOfFlash device name.now) d.old d.new result }
    ensures free { D.is_modelled
        → Touches D.Disk (InSectors (IsFreeOrOther (D.seen d.old))) d.old d.new }
{
    match write_place(alloc, d, &device, place, bytes, olds, chunk) {
        Err(PartFault::NoMemory) => Ok((device, Reply::Refused(Refusal::NoMemory))),
        Err(PartFault::Disk(fault)) => Err(fault),
        Ok(view) => {
            let status = PartStatus {
                name: full_name(&planned_at(&device, place).name, 1 - device.mark.slot),
                image: StatusImage::Stored {
                    count: view.count(),
                    chunk,
                },
            };
            match put_status(d, free, &status) {
                Ok(()) => Ok((written(device, place, chunk, view), Reply::Done)),
                Err(fault) => Err(fault),
            }
        }
    }
}

// Finds a free sector for the status first: without one nothing is written.
fn flash_place<D: Disk>(
    alloc: Global,
    d: &mut D,
    device: Device,
    name: &[u8],
    place: usize,
    bytes: &[u8],
    olds: &[u64],
    chunk: Chunk,
) -> Result<(Device, Reply), DiskFault>
    requires kept { IsDevice device (D.size d.old) }
    requires represents { D.is_modelled → Represents device (D.size d.old) (D.seen d.old) }
    requires chosen { IsChosen device name.now (Some bytes.now) place Destination.Store bytes.now }
    requires listed { IsListed chunk device place olds.now }
    requires exact { D.is_modelled
        → olds.now ≡ differing_at chunk device place (D.seen d.old) bytes.now }
    ensures does { Does D.Disk device (Some bytes.now) (Flash name.now chunk)
        (IsOfFlash device name.now) d.old d.new result }
    ensures free { D.is_modelled
        → Touches D.Disk (InSectors (IsFreeOrOther (D.seen d.old))) d.old d.new }
{
    match first_free(d) {
        Ok(Some(free)) => store_image(alloc, d, device, name, place, bytes, olds, chunk, free),
        Ok(None) => Ok((device, Reply::Refused(Refusal::NoMemory))),
        Err(fault) => Err(fault),
    }
}

// Asks for room for the chunks that differ.
fn flash_found<D: Disk>(
    alloc: Global,
    d: &mut D,
    device: Device,
    name: &[u8],
    place: usize,
    bytes: &[u8],
    found: Differing,
    chunk: Chunk,
) -> Result<(Device, Reply), DiskFault>
    requires kept { IsDevice device (D.size d.old) }
    requires represents { D.is_modelled → Represents device (D.size d.old) (D.seen d.old) }
    requires chosen { IsChosen device name.now (Some bytes.now) place Destination.Store bytes.now }
    requires count { D.is_modelled
        → found.count ≡ length (differing_at chunk device place (D.seen d.old) bytes.now) }
    requires most { found.count ≤ 2 ^ 28 }
    requires exact { D.is_modelled
        → IfSome found.chunks
        (λ v. v.items ≡ differing_at chunk device place (D.seen d.old) bytes.now) }
    requires lists { IfSome found.chunks
        (λ v. AscendsBelow (chunks_for chunk (length (planned_at device place).map))
        (store_long device place) found.count v.items) }
    ensures does { Does D.Disk device (Some bytes.now) (Flash name.now chunk)
        (IsOfFlash device name.now) d.old d.new result }
    ensures free { D.is_modelled
        → Touches D.Disk (InSectors (IsFreeOrOther (D.seen d.old))) d.old d.new }
{
    let Differing { count, chunks } = found;
    let needed = need_at(count, chunk);
    let have = store_blocks(&device, place);
    if needed > have {
        return Ok((device, Reply::Refused(Refusal::StoreFull(needed, have))));
    }
    match chunks {
        Some(olds) => flash_place(alloc, d, device, name, place, bytes, olds.as_slice(), chunk),
        None => Ok((device, Reply::Refused(Refusal::NoMemory))),
    }
}

// The staged bytes become the image of the planned partition at a place, in its store.
fn flash_in_store<D: Disk>(
    alloc: Global,
    d: &mut D,
    device: Device,
    name: &[u8],
    place: usize,
    bytes: &[u8],
    chunk: Chunk,
) -> Result<(Device, Reply), DiskFault>
    requires kept { IsDevice device (D.size d.old) }
    requires represents { D.is_modelled → Represents device (D.size d.old) (D.seen d.old) }
    requires chosen { IsChosen device name.now (Some bytes.now) place Destination.Store bytes.now }
    ensures does { Does D.Disk device (Some bytes.now) (Flash name.now chunk)
        (IsOfFlash device name.now) d.old d.new result }
    ensures free { D.is_modelled
        → Touches D.Disk (InSectors (IsFreeOrOther (D.seen d.old))) d.old d.new }
{
    match find_differing(alloc, d, &device, place, bytes, chunk) {
        Ok(found) => flash_found(alloc, d, device, name, place, bytes, found, chunk),
        Err(fault) => Err(fault),
    }
}

/// The staged bytes become the image of the target's partition of this whole name. Its store gets
/// the chunks that differ from the source's partition of the base name, or, where the target stands
/// apart and there is no store, its own blocks get all bytes; and behind a sync its status a free
/// sector. Behind the bytes there are zeros up to the end of the last chunk. Refused in this order:
/// `NotInstalling`, `BadName`, `Unknown`, `NoStore`, `Written`, `NothingStaged`, `Sparse`,
/// `TooLarge`, `StoreFull`. `NoMemory` comes in place of `Done` alone, and before anything is
/// written; into a partition's own blocks it never comes.
pub fn flash<D: Disk>(
    alloc: Global,
    d: &mut D,
    device: Device,
    name: &[u8],
    staged: Option<&[u8]>,
    chunk: Chunk,
) -> Result<(Device, Reply), DiskFault>
    requires kept { IsDevice device (D.size d.old) }
    requires represents { D.is_modelled → Represents device (D.size d.old) (D.seen d.old) }
    ensures does { Does D.Disk device (option_map (λ s. s.now) staged.entry) (Flash name.now chunk)
        (IsOfFlash device name.now) d.old d.new result }
    // Of the sectors of the statuses it writes the first free one alone.
    ensures free { D.is_modelled
        → Touches D.Disk (InSectors (IsFreeOrOther (D.seen d.old))) d.old d.new }
{
    match choose(&device, name, staged) {
        Err(refusal) => Ok((device, Reply::Refused(refusal))),
        Ok((place, Destination::Store, bytes)) => {
            flash_in_store(alloc, d, device, name, place, bytes, chunk)
        }
        Ok((place, Destination::Blocks, bytes)) => {
            flash_in_place(alloc, d, device, name, place, bytes)
        }
    }
}
