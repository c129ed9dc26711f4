//! The partitions of an update's target, with what their stores hold.

ghost use Rattle.std.specs.Prelude.{◌≡◌, ◌≢◌, ◌<◌, ◌≤◌, ◌+◌, ◌*◌, ◌^◌, ℕ, List, length, IfOk};
ghost use Rattle.std.specs.Prelude.{OnErr, Err, IfErr};
ghost use Rattle.std.specs.Prelude.{IfSome, IfNone, Some, None, Bool, true, Ok, All, get_or};
ghost use Rattle.std.specs.Prelude.{Option};
ghost use Rattle.std.specs.Prelude.{Result, map};
ghost use Rattle.std.specs.Str.{bytes_eq};
ghost use Rattle.vab_disk.specs.Disk.{Image};
ghost use Rattle.vab_disk.specs.Calls.{OnlyReads};
ghost use Rattle.vab_names.specs.Names.{is_of_slot, store_of};
ghost use Rattle.vab_marks.specs.declared.status.PartStatus.{PartStatus};
ghost use Rattle.vab_statuses.specs.Statuses.{written_in};
ghost use Rattle.vab_exceptions.specs.declared.area.Exception.{Exception};
ghost use Rattle.vab_tables.specs.Rules.{KeepsRules, IsPartition, end_of};
ghost use Rattle.vab_store.specs.declared.fault.StoreFault.{StoreFault};
ghost use Rattle.vab_store.specs.Answers.{Answers};
ghost use Rattle.vab_store.specs.Layout.{IsOnDisk};
ghost use Rattle.vab_store.specs.View.{Fits};
ghost use Rattle.vab_layout.specs.Layout.{layout_of, part_of};
ghost use Rattle.vab_layout.specs.Slots.{IsOwnPart, other_slot, own_parts};
ghost use Rattle.vab_device.specs.Faults.{IsOfContents, IsOfDisk};
ghost use Rattle.vab_device.specs.Phases.{store_on, planned_image, planned_on, plan_of};
ghost use Rattle.vab_device.specs.Stores.{Wanted, first_named, wanted_of, scan_read, scans_in};
ghost use Rattle.vab_device.specs.Stores.{is_long};
ghost use Rattle.vab_tidy.specs.Counts.{CountsFaults};
ghost use Rattle.vab_plan.specs.Scans.{scanned_of, scans_of, IsTargetTable};
ghost use Rattle.vab_recover.specs.Scans.{wanted_at, AreBlocks, IsMissing, IsScanned};
ghost use Rattle.vab_recover.specs.Scans.{is_placed, status_placed, status_stored};
ghost use Rattle.vab_recover.specs.Opened.{is_merging, may_place, through_of, through_slot};
ghost use Rattle.vab_recover.specs.Opened.{wanted_for};
ghost use Rattle.vab_recover.specs.Opened.{stores_by, AreRead, IsPlanRead};

use crate::read::is_merging;
use crate::table::Tables;
use std::alloc::Global;
use vab_bytes::{Listing, Name36};
use vab_device::{Part, StartFault};
use vab_disk::Disk;
use vab_gate::DiskFault;
use vab_linear::Map;
use vab_marks::{PartStatus, StatusImage, UpdateMark};
use vab_names::{is_of_slot, store_of};
use vab_plan::{Scan, map, named, plan, store_map};
use vab_scan::scan;
use vab_space::Chunk;
use vab_statuses::Statuses;
use vab_store::{StoreFault, StoreView};
use vab_tables::Table;

// The blocks of the slot's partition of this name and those of its store, where both are there.
fn wanted(
    alloc: Global,
    table: &Table,
    name: &Name36,
    slot: usize,
) -> Result<Option<(Map, Map)>, StartFault>
    requires slot { slot < 2 }
    requires target { IsTargetTable slot table.now }
    ensures there { IfOk result (λ w. IfSome w
        (λ m. AreBlocks slot (layout_of table.now) name.now m.0 m.1)) }
    ensures none { IfOk result (λ w. IfNone w (IsMissing slot (layout_of table.now) name.now)) }
    ensures fault { OnErr result (result ≡ Err StartFault.NoMemory) }
{
    if !is_of_slot(name.text(), slot) {
        return Ok(None);
    }
    let partition = match named(table, name) {
        None => return Ok(None),
        Some(partition) => partition,
    };
    match store_map(alloc, table, name, slot)? {
        None => Ok(None),
        Some(store) => Ok(Some((map(alloc, table, partition)?, store))),
    }
}

// Whether a list is as long as its status says, or no longer where there may be fewer exceptions.
fn is_long(fewer: bool, count: u64, n: u64) -> bool
    ensures { result ≡ is_long fewer count n }
{
    if fewer { n <= count } else { n == count }
}

// What a scan of the store of this name says, where there may be fewer exceptions or not.
pub(crate) fn judge_scan(
    name: &Name36,
    count: u64,
    chunk: Chunk,
    scanned: Result<StoreView, StoreFault>,
    fewer: bool,
) -> Result<Scan, StartFault>
    ensures ok { (w : Wanted) (x : Result (List Exception) StoreFault)
        → w.name ≡ name.now
        → w.chunk ≡ chunk
        → w.count ≡ count
        → w.fewer ≡ fewer
        → Answers scanned x
        → IfOk result (λ s. scan_read w x ≡ Ok (scanned_of s)) }
    ensures fault { (w : Wanted) (x : Result (List Exception) StoreFault)
        → w.name ≡ name.now
        → w.chunk ≡ chunk
        → w.count ≡ count
        → w.fewer ≡ fewer
        → Answers scanned x
        → IfErr result (λ f. IsOfContents f → scan_read w x ≡ Err f) }
    ensures name { IfOk result (λ s. s.name ≡ name.now) }
    ensures chunk { IfOk result (λ s. s.chunk ≡ chunk) }
    ensures view { IfOk result (λ s. scanned ≡ Ok s.view) }
    ensures kind { IfErr result (λ f. IsOfDisk f → scanned ≡ Err StoreFault.DiskFault) }
    ensures disk { scanned ≡ Err StoreFault.DiskFault → IfErr result IsOfDisk }
{
    match scanned {
        Ok(view) => {
            if is_long(fewer, count, view.count()) {
                Ok(Scan {
                    name: *name,
                    chunk,
                    view,
                })
            } else {
                Err(StartFault::BadStore(*name))
            }
        }
        Err(StoreFault::NoMemory) => Err(StartFault::NoMemory),
        Err(StoreFault::DiskFault) => Err(StartFault::Disk(DiskFault)),
        Err(StoreFault::Header(_)) => Err(StartFault::BadStore(*name)),
        Err(StoreFault::BadChunk(_)) => Err(StartFault::BadStore(*name)),
        Err(StoreFault::Repeated(_, _)) => Err(StartFault::BadStore(*name)),
        Err(StoreFault::Unended) => Err(StartFault::BadStore(*name)),
    }
}

// Scans the store of this partition.
fn scan_stored<D: Disk>(
    alloc: Global,
    d: &mut D,
    table: &Table,
    name: &Name36,
    count: u64,
    chunk: Chunk,
    slot: usize,
    fewer: bool,
) -> Result<Scan, StartFault>
    requires slot { slot < 2 }
    requires target { IsTargetTable slot table.now }
    requires on_disk { 4096 + end_of (layout_of table.now).device ≤ D.size d.old }
    ensures ok { D.is_modelled → (may : Bool) → IfOk result
        (λ s. wanted_at (wanted_for fewer may slot (layout_of table.now)
        (status_stored name.now count chunk)) (D.seen d.old)
        ≡ Ok (scanned_of s)) }
    ensures fault { D.is_modelled → (may : Bool) → IfErr result (λ f. IsOfContents f
        → wanted_at (wanted_for fewer may slot (layout_of table.now)
        (status_stored name.now count chunk)) (D.seen d.old)
        ≡ Err f) }
    ensures is { IfOk result (λ s. IsScanned slot (layout_of table.now) (scanned_of s)) }
    ensures reads { OnlyReads D.Disk d.old d.new }
    ensures counts { CountsFaults D.Disk d.old d.new result }
{
    match wanted(alloc, table, name, slot) {
        Err(fault) => Err(fault),
        Ok(None) => Err(StartFault::BadStore(*name)),
        Ok(Some((base, store))) => {
            let scanned = scan(alloc, d, &store, base.len(), chunk);
            judge_scan(name, count, chunk, scanned, fewer)
        }
    }
}

// Whether the slot has a partition of this name, and that has no store.
fn is_placed(table: &Table, name: &Name36, slot: usize) -> bool
    requires slot { slot < 2 }
    requires target { IsTargetTable slot table.now }
    ensures { result
        ≡ is_placed (first_named name.now (own_parts slot (layout_of table.now).parts))
        (first_named (store_of name.now) (layout_of table.now).parts) }
{
    if !is_of_slot(name.text(), slot) {
        return false;
    }
    match named(table, name) {
        None => false,
        Some(_) => named(table, &store_of(name)).is_none(),
    }
}

// The image in place of this partition, where one may be so.
fn scan_placed(
    alloc: Global,
    table: &Table,
    name: &Name36,
    slot: usize,
    fewer: bool,
    may: bool,
) -> Result<Scan, StartFault>
    requires slot { slot < 2 }
    requires target { IsTargetTable slot table.now }
    ensures ok { (image : Image) → IfOk result
        (λ s. wanted_at (wanted_for fewer may slot (layout_of table.now)
        (status_placed name.now)) image
        ≡ Ok (scanned_of s)) }
    ensures fault { (image : Image) → IfErr result
        (λ f. wanted_at (wanted_for fewer may slot (layout_of table.now)
        (status_placed name.now)) image
        ≡ Err f) }
    ensures is { IfOk result (λ s. IsScanned slot (layout_of table.now) (scanned_of s)) }
    ensures kind { IfErr result IsOfContents }
{
    if may && is_placed(table, name, slot) {
        Ok(Scan {
            name: *name,
            chunk: Chunk::One,
            view: StoreView::empty(alloc),
        })
    } else {
        Err(StartFault::BadStore(*name))
    }
}

// Scans the image that a status names: its store, or nothing where it stands in place.
fn scan_store<D: Disk>(
    alloc: Global,
    d: &mut D,
    table: &Table,
    status: &PartStatus,
    slot: usize,
    fewer: bool,
    may: bool,
) -> Result<Scan, StartFault>
    requires slot { slot < 2 }
    requires target { IsTargetTable slot table.now }
    requires on_disk { 4096 + end_of (layout_of table.now).device ≤ D.size d.old }
    ensures ok { D.is_modelled → IfOk result
        (λ s. wanted_at (wanted_for fewer may slot (layout_of table.now) status.now) (D.seen d.old)
        ≡ Ok (scanned_of s)) }
    ensures fault { D.is_modelled → IfErr result (λ f. IsOfContents f
        → wanted_at (wanted_for fewer may slot (layout_of table.now) status.now) (D.seen d.old)
        ≡ Err f) }
    ensures is { IfOk result (λ s. IsScanned slot (layout_of table.now) (scanned_of s)) }
    ensures reads { OnlyReads D.Disk d.old d.new }
    ensures counts { CountsFaults D.Disk d.old d.new result }
{
    match status.image {
        StatusImage::InPlace => scan_placed(alloc, table, &status.name, slot, fewer, may),
        StatusImage::Stored { count, chunk } => {
            scan_stored(alloc, d, table, &status.name, count, chunk, slot, fewer)
        }
    }
}

/// Scans the images that these statuses name, in their order. `BadStore` comes exactly where a
/// status names no partition of the slot with a store, or the store holds no list of exceptions as
/// long as the status says, or no longer where there may be fewer, with the first such name. An
/// image in place is that of a partition without a store, where one may be so.
pub fn scan_stores<D: Disk>(
    alloc: Global,
    d: &mut D,
    table: &Table,
    statuses: &Statuses,
    slot: usize,
    fewer: bool,
    may: bool,
) -> Result<Vec<Scan>, StartFault>
    requires slot { slot < 2 }
    requires target { IsTargetTable slot table.now }
    requires on_disk { 4096 + end_of (layout_of table.now).device ≤ D.size d.old }
    ensures ok { D.is_modelled → IfOk result
        (λ scans. scans_in (map (wanted_for fewer may slot (layout_of table.now))
        (written_in statuses.now.items)) (D.seen d.old)
        ≡ Ok (scans_of scans.items)) }
    ensures fault { D.is_modelled → IfErr result (λ f. IsOfContents f
        → scans_in (map (wanted_for fewer may slot (layout_of table.now))
        (written_in statuses.now.items)) (D.seen d.old)
        ≡ Err f) }
    ensures are { IfOk result
        (λ scans. All (IsScanned slot (layout_of table.now)) (scans_of scans.items)) }
    ensures reads { OnlyReads D.Disk d.old d.new }
    ensures counts { CountsFaults D.Disk d.old d.new result }
{
    let mut scans = Vec::new(alloc);
    for entry in statuses.as_slice() {
        match entry {
            None => {}
            Some(status) => scans.push(scan_store(alloc, d, table, status, slot, fewer, may)?)?,
        }
    }
    Ok(scans)
}

// The partitions of a slot with this table, and what the stores hold that the statuses name.
fn read_parts<D: Disk>(
    alloc: Global,
    d: &mut D,
    table: &Table,
    statuses: &Statuses,
    slot: usize,
    fewer: bool,
    may: bool,
) -> Result<Listing<Part>, StartFault>
    requires slot { slot < 2 }
    requires target { IsTargetTable slot table.now }
    requires on_disk { 4096 + end_of (layout_of table.now).device ≤ D.size d.old }
    ensures parts { IfOk result
        (AreRead D.is_modelled fewer may slot table.now statuses.now.items (D.seen d.old)) }
    ensures fault { D.is_modelled → IfErr result (λ f. IsOfContents f
        → scans_in (map (wanted_for fewer may slot (layout_of table.now))
        (written_in statuses.now.items)) (D.seen d.old)
        ≡ Err f) }
    ensures reads { OnlyReads D.Disk d.old d.new }
    ensures counts { CountsFaults D.Disk d.old d.new result }
{
    match scan_stores(alloc, d, table, statuses, slot, fewer, may) {
        Err(fault) => Err(fault),
        Ok(scans) => plan(alloc, table, slot, scans),
    }
}

/// The partitions that are read through stores, with what these hold: those of an update's target,
/// and while it is merged those of the mark's slot.
pub(crate) fn read_plan<D: Disk>(
    alloc: Global,
    d: &mut D,
    tables: &Tables,
    statuses: &Statuses,
    mark: &UpdateMark,
) -> Result<Option<Listing<Part>>, StartFault>
    requires slot { mark.now.slot < 2 }
    requires target { IfSome (through_of mark.now.phase tables.now.source tables.now.target)
        (λ l. IsTargetTable (through_slot mark.now.phase mark.now.slot) l.table) }
    requires on_disk { IfSome (through_of mark.now.phase tables.now.source tables.now.target)
        (λ l. 4096 + end_of (layout_of l.table).device ≤ D.size d.old) }
    ensures plan { IfOk result
        (IsPlanRead D.is_modelled (is_merging mark.now.phase) (may_place mark.now)
        (through_slot mark.now.phase mark.now.slot)
        (through_of mark.now.phase tables.now.source tables.now.target)
        statuses.now.items (D.seen d.old)) }
    ensures fault { D.is_modelled → IfErr result (λ f. IsOfContents f
        → scans_in
        (stores_by (is_merging mark.now.phase) (may_place mark.now)
        (through_slot mark.now.phase mark.now.slot)
        (through_of mark.now.phase tables.now.source tables.now.target)
        (written_in statuses.now.items))
        (D.seen d.old)
        ≡ Err f) }
    ensures reads { OnlyReads D.Disk d.old d.new }
    ensures counts { CountsFaults D.Disk d.old d.new result }
{
    if is_merging(mark.phase) {
        return match read_parts(
            alloc,
            d,
            &tables.source.table,
            statuses,
            mark.slot,
            true,
            true,
        ) {
            Err(fault) => Err(fault),
            Ok(parts) => Ok(Some(parts)),
        };
    }
    match &tables.target {
        None => Ok(None),
        Some(target) => {
            let slot = 1 - mark.slot;
            match read_parts(alloc, d, &target.table, statuses, slot, false, mark.apart) {
                Err(fault) => Err(fault),
                Ok(parts) => Ok(Some(parts)),
            }
        }
    }
}
