//! The partitions of an update's target, with what their stores hold.

ghost use Rattle.std.specs.Prelude.{◌≡◌, ◌≢◌, ◌<◌, ◌≤◌, ℕ, List, length, IfOk, OnErr, Err};
ghost use Rattle.std.specs.Prelude.{IfSome, IfNone, Some, None, true, get_or, option_map};
ghost use Rattle.std.specs.Str.{bytes_eq};
ghost use Rattle.vab_names.specs.Names.{is_of_slot};
ghost use Rattle.vab_tables.specs.Rules.{KeepsRules, IsPartition};
ghost use Rattle.vab_layout.specs.Layout.{layout_of, part_of};
ghost use Rattle.vab_layout.specs.Slots.{IsOwnPart};
ghost use Rattle.vab_device.specs.Phases.{store_on, planned_image, planned_on, plan_of};
ghost use Rattle.vab_device.specs.Stores.{first_named, scanned_named};
ghost use Rattle.vab_plan.specs.declared.planning.Scan.{Scan};
ghost use Rattle.vab_plan.specs.Scans.{scanned_of, scans_of, IsTargetTable};

use crate::partitions::{base, map};
use std::alloc::Global;
use vab_bytes::{Listing, Name36};
use vab_device::{Part, PartImage, StartFault};
use vab_linear::Map;
use vab_names::{is_of_slot, store_of};
use vab_space::Chunk;
use vab_store::StoreView;
use vab_tables::{Partition, Table};

/// The attribute of a partition that an update changes.
const UPDATED: u32 = 4;

/// The exceptions of the store of a partition.
#[derive(Drop)]
pub struct Scan {
    /// The partition's whole name.
    pub name: Name36,
    /// The size of a chunk of the store.
    pub chunk: Chunk,
    pub view: StoreView,
}

// Whether the partition has this name.
fn is_named(partition: &Partition, name: &Name36) -> bool
    ensures { result ≡ bytes_eq partition.now.name name.now }
{
    partition.name.text() == name.text()
}

/// The first partition of this name.
pub fn named<'a>(table: &'a Table, name: &Name36) -> Option<&'a Partition>
    requires keeps { KeepsRules table.now }
    ensures some { IfSome result (λ p. first_named name.now (layout_of table.now).parts
        ≡ Some (part_of table.now p.now)) }
    ensures rules { IfSome result (λ p. IsPartition table.now.minor (length table.now.extents)
        (length table.now.groups) p.now) }
    ensures none { IfNone result (first_named name.now (layout_of table.now).parts ≡ None) }
{
    for partition in table.partitions.as_slice() {
        if is_named(partition, name) {
            return Some(partition);
        }
    }
    None
}

/// Where the blocks of the store of the slot's partition of this name stand, if it has one.
/// `NoMemory` where memory is refused.
pub fn store_map(
    alloc: Global,
    table: &Table,
    name: &Name36,
    slot: usize,
) -> Result<Option<Map>, StartFault>
    requires target { IsTargetTable slot table.now }
    requires own { is_of_slot slot name.now ≡ true }
    requires short { length name.now ≤ 32 }
    ensures store { IfOk result (λ m. m ≡ store_on (layout_of table.now) name.now) }
    ensures fault { OnErr result (result ≡ Err StartFault.NoMemory) }
{
    match named(table, &store_of(name)) {
        None => Ok(None),
        Some(store) => match map(alloc, table, store) {
            Ok(map) => Ok(Some(map)),
            Err(fault) => Err(fault),
        },
    }
}

// Where the exceptions of the partition of this name stand.
fn place(scans: &[Scan], name: &Name36) -> Option<usize>
    ensures none { IfNone result (scanned_named name.now (scans_of scans.now) ≡ None) }
    ensures within { IfSome result (λ i. i < length scans.now) }
    ensures first { IfSome result (λ i. (d : Scan)
        → scanned_named name.now (scans_of scans.now)
        ≡ Some (scanned_of (get_or scans.now i d))) }
    ensures is { IfSome result (λ i. (d : Scan) → (get_or scans.now i d).name ≡ name.now) }
{
    for i in 0..scans.len() {
        if scans[i].name.text() == name.text() {
            return Some(i);
        }
    }
    None
}

// The exceptions of the partition of this name, which leave the list.
fn take(scans: &mut Vec<Scan>, name: &Name36) -> Option<Scan>
    ensures found { option_map scanned_of result
        ≡ scanned_named name.now (scans_of scans.old.items) }
    ensures others { (n : List ℕ)
        → n ≢ name.now
        → scanned_named n (scans_of scans.new.items)
        ≡ scanned_named n (scans_of scans.old.items) }
{
    match place(scans.as_slice(), name) {
        None => None,
        Some(at) => Some(scans.remove(at)),
    }
}

// What is known of the image of a partition.
fn image(updated: bool, scan: Option<Scan>) -> PartImage
    ensures { result ≡ planned_image updated (option_map scanned_of scan) }
{
    match scan {
        None => {
            if updated {
                PartImage::Declared
            } else {
                PartImage::Kept
            }
        }
        Some(scan) => {
            if updated {
                PartImage::Written(scan.chunk, scan.view)
            } else {
                PartImage::Kept
            }
        }
    }
}

// A partition of the target, with the exceptions of its store, which leave the list.
fn planned(
    alloc: Global,
    table: &Table,
    partition: &Partition,
    slot: usize,
    scans: &mut Vec<Scan>,
) -> Result<Part, StartFault>
    requires target { IsTargetTable slot table.now }
    requires rules { IsPartition table.now.minor (length table.now.extents)
        (length table.now.groups) partition.now }
    requires own { is_of_slot slot partition.now.name ≡ true }
    requires part { IsOwnPart slot (part_of table.now partition.now) }
    ensures entry { IfOk result (λ p. p
        ≡ planned_on (layout_of table.now) (scans_of scans.old.items)
        (part_of table.now partition.now)) }
    ensures others { (n : List ℕ)
        → n ≢ partition.now.name
        → scanned_named n (scans_of scans.new.items)
        ≡ scanned_named n (scans_of scans.old.items) }
    ensures fault { OnErr result (result ≡ Err StartFault.NoMemory) }
{
    let scan = take(scans, &partition.name);
    let map = map(alloc, table, partition)?;
    let store = store_map(alloc, table, &partition.name, slot)?;
    Ok(Part {
        name: base(&partition.name),
        group: table.groups.as_slice()[partition.group as usize].name,
        map,
        store,
        image: image(partition.attributes & UPDATED != 0, scan),
    })
}

/// The partitions of an update's target, in the order of the table, with these exceptions.
pub fn plan(
    alloc: Global,
    table: &Table,
    slot: usize,
    scans: Vec<Scan>,
) -> Result<Listing<Part>, StartFault>
    requires slot { slot < 2 }
    requires target { IsTargetTable slot table.now }
    ensures plan { IfOk result
        (λ ps. ps ≡ plan_of slot (layout_of table.now) (scans_of scans.items)) }
    ensures fault { OnErr result (result ≡ Err StartFault.NoMemory) }
{
    let mut left = scans;
    let mut plan = Vec::new(alloc);
    for partition in table.partitions.as_slice() {
        if is_of_slot(partition.name.text(), slot) {
            plan.push(planned(alloc, table, partition, slot, &mut left)?)?;
        }
    }
    Ok(Listing::from_vec(plan))
}
