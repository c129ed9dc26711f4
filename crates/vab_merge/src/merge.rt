//! The merge of a run.

ghost use Rattle.std.specs.Prelude.{◌≡◌, ◌-◌, ◌<◌, ◌≤◌, length, take, Ok, IfOk, OnErr, OnOk};
ghost use Rattle.vab_space.specs.Chunks.{entries_in};
ghost use Rattle.vab_disk.specs.Disk.{Adds};
ghost use Rattle.vab_disk.specs.Calls.{InSectors, Touches, IsAtRest, FailsWithDisk};
ghost use Rattle.vab_store.specs.Layout.{slots_of, IsOnDisk, IsApart};
ghost use Rattle.vab_store.specs.Scan.{scan_of};
ghost use Rattle.vab_merge.specs.Run.{IsRun};
ghost use Rattle.vab_merge.specs.Copied.{InCopied, AreCopied};
ghost use Rattle.vab_merge.specs.Cleared.{IsClearing, AreCleared};
ghost use Rattle.vab_merge.specs.Merged.{MayMerge, CanMerge, WithoutLast, LeavesMerged};
ghost use Rattle.vab_merge.specs.Merged.{IsMerging, IsRan, dropped_by};

use crate::clear::clear_entries;
use crate::copy::copy_blocks;
use crate::run::run_length;
use vab_disk::Disk;
use vab_gate::{DiskFault, settle};
use vab_linear::Map;
use vab_space::Chunk;
use vab_store::StoreView;

/// What a merge did.
#[derive(Clone, Copy, Debug, PartialEq, Eq)]
pub enum Ran {
    /// So many exceptions, at least one, were merged.
    Merged(u64),
    /// No exception is left.
    Empty,
}

// Copies the chunks of the exceptions from `first` on, and syncs.
fn copy_run<D: Disk>(
    d: &mut D,
    base: &Map,
    store: &Map,
    view: &StoreView,
    first: u64,
    chunk: Chunk,
) -> Result<(), DiskFault>
    requires may { MayMerge chunk base.now store.now view.now (D.size d.old) }
    requires can { D.is_modelled → CanMerge chunk base.now store.now view.now (D.size d.old) }
    requires first { first ≤ length view.now }
    ensures copied { D.is_modelled → OnOk result
        (AreCopied chunk base.now store.now view.now first (length view.now)
        (D.seen d.old) (D.seen d.new)) }
    ensures rest { D.is_modelled → OnOk result (IsAtRest D.Disk d.new) }
    ensures touches { Touches D.Disk
        (InSectors (InCopied chunk base.now view.now first)) d.old d.new }
    ensures faults { FailsWithDisk D.Disk d.old d.new result }
{
    copy_blocks(d, base, store, view, first, chunk)?;
    settle(d)
}

// Zeroes the entries from `first` up to `end`, and syncs.
fn clear_run<D: Disk>(
    d: &mut D,
    store: &Map,
    first: u64,
    end: u64,
    chunk: Chunk,
) -> Result<(), DiskFault>
    requires order { first < end }
    requires there { end ≤ slots_of chunk store.now }
    requires on_disk { IsOnDisk store.now (D.size d.old) }
    requires apart { D.is_modelled → IsApart store.now }
    ensures cleared { D.is_modelled → OnOk result
        (AreCleared chunk store.now first end (D.seen d.old) (D.seen d.new)) }
    ensures rest { D.is_modelled → OnOk result (IsAtRest D.Disk d.new) }
    ensures touches { Touches D.Disk
        (IsClearing chunk store.now first end (D.seen d.old)) d.old d.new }
    ensures faults { FailsWithDisk D.Disk d.old d.new result }
{
    clear_entries(d, store, chunk, first, end)?;
    settle(d)
}

// Merges the last n exceptions, which are a run.
fn merge_last<D: Disk>(
    d: &mut D,
    base: &Map,
    store: &Map,
    view: &StoreView,
    n: u64,
    chunk: Chunk,
) -> Result<(), DiskFault>
    requires may { MayMerge chunk base.now store.now view.now (D.size d.old) }
    requires can { D.is_modelled → CanMerge chunk base.now store.now view.now (D.size d.old) }
    requires some { 0 < n }
    requires run { IsRun (entries_in chunk) view.now n }
    ensures merged { D.is_modelled
        → scan_of chunk store.now (length base.now) (D.seen d.old) ≡ Ok view.now
        → OnOk result
        (WithoutLast chunk base.now store.now view.now n (D.seen d.old) (D.seen d.new)) }
    ensures rest { D.is_modelled → OnOk result (IsAtRest D.Disk d.new) }
    ensures time { D.is_modelled
        → IsAtRest D.Disk d.old
        → scan_of chunk store.now (length base.now) (D.seen d.old) ≡ Ok view.now
        → Adds D.moment D.outcomes d.old d.new
        (LeavesMerged chunk base.now store.now view.now n (D.told d.old) (D.seen d.old)) }
    ensures cleared { D.is_modelled → OnOk result
        (AreCleared chunk store.now (length view.now - n) (length view.now)
        (D.seen d.old) (D.seen d.new)) }
    ensures touches { Touches D.Disk
        (IsMerging chunk base.now store.now view.now n (D.seen d.old)) d.old d.new }
    ensures faults { FailsWithDisk D.Disk d.old d.new result }
{
    let end = view.count();
    let first = end - n;
    copy_run(d, base, store, view, first, chunk)?;
    clear_run(d, store, first, end, chunk)
}

// Drops the last exceptions.
fn drop_run(view: &mut StoreView, n: u64)
    requires { n ≤ length view.old }
    ensures { view.new ≡ take (length view.old - n) view.old }
{
    for _i in 0..n {
        view.drop_last();
    }
}

/// Merges the last exceptions of a store whose chunks have this size: as many, but at most `most`,
/// as stand in one area with old chunks that ascend by one. Those of their blocks that the
/// partition has are copied to it, then their entries are zeroed, each with a sync behind it. After
/// a fault the view is the old one: the store may have fewer exceptions by then, so it has to be
/// scanned again.
pub fn run_turn<D: Disk>(
    d: &mut D,
    base: &Map,
    store: &Map,
    view: &mut StoreView,
    most: u64,
    chunk: Chunk,
) -> Result<Ran, DiskFault>
    requires may { MayMerge chunk base.now store.now view.old (D.size d.old) }
    requires can { D.is_modelled → CanMerge chunk base.now store.now view.old (D.size d.old) }
    requires some { 0 < most }
    ensures ran { IfOk result (IsRan chunk view.old most) }
    ensures kept { IfOk result
        (λ ran. view.new ≡ take (length view.old - dropped_by ran) view.old) }
    ensures failed { OnErr result (view.new ≡ view.old) }
    // The kept view is the store's scan, and each block reads as before.
    ensures merged { D.is_modelled
        → scan_of chunk store.now (length base.now) (D.seen d.old) ≡ Ok view.old
        → IfOk result (λ ran.
        WithoutLast chunk base.now store.now view.old (dropped_by ran)
        (D.seen d.old) (D.seen d.new)) }
    ensures rest { D.is_modelled → IsAtRest D.Disk d.old → OnOk result (IsAtRest D.Disk d.new) }
    // So it is in each outcome, but that fewer of the exceptions may be gone.
    ensures time { D.is_modelled
        → IsAtRest D.Disk d.old
        → scan_of chunk store.now (length base.now) (D.seen d.old) ≡ Ok view.old
        → Adds D.moment D.outcomes d.old d.new
        (LeavesMerged chunk base.now store.now view.old most (D.told d.old) (D.seen d.old)) }
    // In their sectors all bytes of the entries that are gone are zeros, and each other is kept.
    ensures cleared { D.is_modelled → IfOk result (λ ran.
        AreCleared chunk store.now (length view.old - dropped_by ran) (length view.old)
        (D.seen d.old) (D.seen d.new)) }
    ensures touches { Touches D.Disk
        (IsMerging chunk base.now store.now view.old most (D.seen d.old)) d.old d.new }
    ensures faults { FailsWithDisk D.Disk d.old d.new result }
{
    let n = run_length(view, most, chunk);
    if n == 0 {
        return Ok(Ran::Empty);
    }
    match merge_last(d, base, store, view, n, chunk) {
        Err(fault) => Err(fault),
        Ok(()) => {
            drop_run(view, n);
            Ok(Ran::Merged(n))
        }
    }
}

/// Merges the last exception of a store whose chunks have this size.
pub fn turn<D: Disk>(
    d: &mut D,
    base: &Map,
    store: &Map,
    view: &mut StoreView,
    chunk: Chunk,
) -> Result<Ran, DiskFault>
    requires may { MayMerge chunk base.now store.now view.old (D.size d.old) }
    requires can { D.is_modelled → CanMerge chunk base.now store.now view.old (D.size d.old) }
    ensures ran { IfOk result (IsRan chunk view.old 1) }
    ensures kept { IfOk result
        (λ ran. view.new ≡ take (length view.old - dropped_by ran) view.old) }
    ensures failed { OnErr result (view.new ≡ view.old) }
    ensures merged { D.is_modelled
        → scan_of chunk store.now (length base.now) (D.seen d.old) ≡ Ok view.old
        → IfOk result (λ ran.
        WithoutLast chunk base.now store.now view.old (dropped_by ran)
        (D.seen d.old) (D.seen d.new)) }
    ensures rest { D.is_modelled → IsAtRest D.Disk d.old → OnOk result (IsAtRest D.Disk d.new) }
    ensures time { D.is_modelled
        → IsAtRest D.Disk d.old
        → scan_of chunk store.now (length base.now) (D.seen d.old) ≡ Ok view.old
        → Adds D.moment D.outcomes d.old d.new
        (LeavesMerged chunk base.now store.now view.old 1 (D.told d.old) (D.seen d.old)) }
    // In their sectors all bytes of the entries that are gone are zeros, and each other is kept.
    ensures cleared { D.is_modelled → IfOk result (λ ran.
        AreCleared chunk store.now (length view.old - dropped_by ran) (length view.old)
        (D.seen d.old) (D.seen d.new)) }
    ensures touches { Touches D.Disk
        (IsMerging chunk base.now store.now view.old 1 (D.seen d.old)) d.old d.new }
    ensures faults { FailsWithDisk D.Disk d.old d.new result }
{
    run_turn(d, base, store, view, 1, chunk)
}
