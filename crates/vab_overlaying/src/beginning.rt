//! An overlay that begins.

ghost use Rattle.std.specs.Prelude.{◌≡◌, ◌≤◌, ℕ, List, [], length, Option, Ok, OnOk, IfOk, true};
ghost use Rattle.vab_disk.specs.Calls.{IsAtRest, InSectors, Touches, FailsWithDisk};
ghost use Rattle.vab_space.specs.declared.Chunk.TheVariants.{One};
ghost use Rattle.vab_store.specs.Clean.{ends_clean};
ghost use Rattle.vab_store.specs.Layout.{InFirst, IsOnDisk, IsApart};
ghost use Rattle.vab_store.specs.Scan.{scan_of};
ghost use Rattle.vab_model.specs.declared.command.Reply.TheVariants as replies;
ghost use Rattle.vab_model.specs.Commands.{Overlay};
ghost use Rattle.vab_device.specs.Does.{Does};
ghost use Rattle.vab_device.specs.Kept.{IsDevice};
ghost use Rattle.vab_device.specs.Reading.{Represents};
ghost use Rattle.vab_overlaying.specs.Begun.{with_slot, over_device, IsOver, Begins, IsOfHead};
ghost use Rattle.vab_overlaying.specs.Writes.{IsOfOverlay};

use crate::prepared::prepare;
use std::alloc::Global;
use vab_bytes::Listing;
use vab_device::{Device, Part, PartImage};
use vab_disk::Disk;
use vab_gate::{DiskFault, settle};
use vab_install::put_mark;
use vab_linear::Map;
use vab_lpstore::store_table;
use vab_model::Reply;
use vab_space::Chunk;
use vab_store::{StoreView, write_store};
use vab_tables::Table;

// Writes the header and the first page of a new store, which has no exceptions, and syncs.
fn put_head<D: Disk>(d: &mut D, store: &Map) -> Result<(), DiskFault>
    requires two { 2 ≤ length store.now }
    requires on_disk { IsOnDisk store.now (D.size d.old) }
    requires apart { D.is_modelled → IsApart store.now }
    ensures scanned { D.is_modelled → OnOk result
        ((bound : ℕ) → scan_of One store.now bound (D.seen d.new) ≡ Ok []) }
    ensures clean { D.is_modelled → OnOk result
        (ends_clean store.now 0 (D.seen d.new) ≡ true) }
    ensures settled { D.is_modelled → OnOk result (IsAtRest D.Disk d.new) }
    ensures touches { Touches D.Disk (InSectors (InFirst store.now 2)) d.old d.new }
    ensures faults { FailsWithDisk D.Disk d.old d.new result }
{
    write_store(d, store, &[], &[], Chunk::One)?;
    settle(d)
}

// The device with this partition overlaid.
fn overlaid(device: Device, part: Part, store: Map, view: StoreView) -> Device
    requires { view ≡ [] }
    ensures { result ≡ over_device device part store }
{
    let mark = device.mark.with_overlay(true);
    let overlay = Some(Part {
        store: Some(store),
        image: PartImage::Written(Chunk::One, view),
        ..part
    });
    Device {
        mark,
        overlay,
        ..device
    }
}

// Begins an overlay over this partition of a slot whose table has the store: the head of the store
// stands on the disk before one gate of the mark says that the slot is overlaid.
fn begin_over<D: Disk>(
    d: &mut D,
    device: Device,
    part: Part,
    store: Map,
    view: StoreView,
) -> Result<(Device, Reply), DiskFault>
    requires kept { IsDevice device (D.size d.old) }
    requires represents { D.is_modelled → Represents device (D.size d.old) (D.seen d.old) }
    requires over { IsOver device part store }
    requires empty { view ≡ [] }
    ensures does { (staged : Option (List ℕ)) (name : List ℕ) (size : ℕ)
        → (D.is_modelled → Begins device staged name size part (length store) (D.seen d.old))
        → Does D.Disk device staged (Overlay name size) (IsOfHead device store) d.old d.new
        result }
    ensures done { IfOk result (λ r. r.1 ≡ replies.Done) }
{
    match put_head(d, &store) {
        Err(fault) => Err(fault),
        Ok(()) => {
            let mark = device.mark.with_overlay(true);
            match put_mark(d, &mark) {
                Err(fault) => Err(fault),
                Ok(()) => Ok((overlaid(device, part, store, view), Reply::Done)),
            }
        }
    }
}

// The device with this table of the slot of its mark, and these partitions of the slot.
fn with_slot(device: Device, table: Table, parts: Listing<Part>) -> Device
    ensures { result ≡ with_slot device table parts }
{
    if device.mark.slot == 0 {
        Device {
            a: Some(parts),
            table_a: Some(table),
            ..device
        }
    } else {
        Device {
            b: Some(parts),
            table_b: Some(table),
            ..device
        }
    }
}

/// Begins an overlay over the current slot's partition of this whole name: an exception store of
/// `size` bytes, or of as many blocks as all of the partition's may need where that is 0. First the
/// slot's table gets the store, by which the device means the same; then the store's header and its
/// first page are written, which nothing reads yet; and one gate of the mark says that the slot is
/// overlaid. Refused with `NotIdle` where there is an update or an overlay, with `BadName`,
/// `BadSize` and `Unknown`, with `NoRoom` where the slot's partitions and the store have more
/// blocks than the device, and with `TableFull`. `NoMemory` where memory is refused, before
/// anything is written. The error comes where the disk has failed.
pub fn overlay<D: Disk>(
    alloc: Global,
    d: &mut D,
    device: Device,
    name: &[u8],
    size: u64,
) -> Result<(Device, Reply), DiskFault>
    requires kept { IsDevice device (D.size d.old) }
    requires represents { D.is_modelled → Represents device (D.size d.old) (D.seen d.old) }
    ensures { (staged : Option (List ℕ))
        → Does D.Disk device staged (Overlay name.now size) (IsOfOverlay device name.now) d.old
        d.new result }
{
    match prepare(alloc, &device, name, size) {
        Err(refusal) => Ok((device, Reply::Refused(refusal))),
        Ok(next) => {
            let slot = device.mark.slot;
            match store_table(d, &device.geometry, slot, next.text.as_slice()) {
                Err(fault) => Err(fault),
                Ok(()) => {
                    let device = with_slot(device, next.table, next.parts);
                    begin_over(d, device, next.part, next.store, StoreView::empty(alloc))
                }
            }
        }
    }
}
