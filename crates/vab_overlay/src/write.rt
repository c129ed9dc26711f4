//! A block that is written.

ghost use Rattle.std.specs.Prelude.{◌≡◌, ℕ, ◌+◌, ◌<◌, ◌≤◌, length, OnOk, OnErr};
ghost use Rattle.vab_disk.specs.Disk.{Adds};
ghost use Rattle.vab_disk.specs.Calls.{Touches, IsAtRest, FailsWithDisk};
ghost use Rattle.vab_space.specs.Space.{need_of};
ghost use Rattle.vab_space.specs.declared.Chunk.TheVariants.{One};
ghost use Rattle.vab_store.specs.Layout.{IsApart};
ghost use Rattle.vab_store.specs.Setting.{set_entry, IsLowestFree};
ghost use Rattle.vab_store.specs.View.{Fits};
ghost use Rattle.vab_overlay.specs.Faults.{TellsFull, CountsFaults, CallsNone};
ghost use Rattle.vab_overlay.specs.Overlaid.{MayOverlay, IsOverlaid, IsEntered, IsWritten};
ghost use Rattle.vab_overlay.specs.Overlaid.{LeavesOverlaid, IsOverlaying};

use crate::OverlayFault;
use crate::data::{next_page, put_data};
use crate::entry::gate_entry;
use vab_disk::Disk;
use vab_exceptions::Exception;
use vab_gate::DiskFault;
use vab_linear::Map;
use vab_space::{Chunk, need};
use vab_store::StoreView;

// Writes a block's data into the lowest free chunk, and then its entry, each with a sync behind it.
fn write_entry<D: Disk>(
    d: &mut D,
    store: &Map,
    view: &StoreView,
    block: u64,
    chunk: u64,
    from: &[u8; 4096],
) -> Result<(), DiskFault>
    requires may { MayOverlay store.now view.now block (D.size d.old) }
    requires apart { D.is_modelled → IsApart store.now }
    requires room { need_of (length view.now + 1) ≤ length store.now }
    requires lowest { IsLowestFree One view.now chunk }
    requires inside { chunk < length store.now }
    ensures written { D.is_modelled → OnOk result
        ((bound : ℕ)
        → block < bound
        → IsOverlaid store.now bound view.now (D.seen d.old)
        → IsWritten store.now bound view.now (set_entry view.now block chunk) block from.now
        (D.seen d.old) (D.seen d.new)) }
    ensures rest { D.is_modelled → OnOk result (IsAtRest D.Disk d.new) }
    ensures time { D.is_modelled
        → IsAtRest D.Disk d.old
        → (bound : ℕ)
        → block < bound
        → IsOverlaid store.now bound view.now (D.seen d.old)
        → Adds D.moment D.outcomes d.old d.new
        (LeavesOverlaid store.now bound view.now block from.now (D.told d.old) (D.seen d.old)) }
    ensures touches { Touches D.Disk
        (IsOverlaying store.now view.now block from.now (D.seen d.old)) d.old d.new }
    ensures faults { FailsWithDisk D.Disk d.old d.new result }
{
    let _blocks = store.len();
    let place = view.place_of(block);
    let exception = Exception {
        old_chunk: block,
        new_chunk: chunk,
    };
    put_data(d, store, chunk, from, next_page(view.count(), place))?;
    gate_entry(d, store, place, exception)
}

/// Writes a block of a partition into its exception store, whose chunks are of one block, to be
/// read in place of the partition's own. The view has the store's exceptions, and behind them the
/// page in which they end has no other one.
///
/// The bytes go to the lowest data chunk that no exception has, also where the block has one
/// already, so that what it reads as stays until the new entry stands. Where that entry is a new
/// one and fills its page, the next page is zeroed too. Then it syncs, writes the entry in its
/// sector, and syncs.
///
/// The store is full where it has fewer blocks than one exception more would need, whether the
/// block has one or not. After a fault the view is the old one: the store may have the new entry by
/// then, so it has to be scanned again.
pub fn overlay_write<D: Disk>(
    d: &mut D,
    store: &Map,
    view: &mut StoreView,
    block: u64,
    from: &[u8; 4096],
) -> Result<(), OverlayFault>
    requires may { MayOverlay store.now view.old block (D.size d.old) }
    requires apart { D.is_modelled → IsApart store.now }
    ensures full { TellsFull (need_of (length view.old + 1)) (length store.now) result }
    ensures entered { OnOk result (IsEntered view.old block view.new) }
    ensures failed { OnErr result (view.new ≡ view.old) }
    ensures fits { OnOk result
        ((bound : ℕ)
        → block < bound
        → Fits One bound store.now view.old
        → Fits One bound store.now view.new) }
    // The view is again the store's scan, which ends clean; the block reads as it was written, and
    // each other one as before.
    ensures written { D.is_modelled → OnOk result
        ((bound : ℕ)
        → block < bound
        → IsOverlaid store.now bound view.old (D.seen d.old)
        → IsWritten store.now bound view.old view.new block from.now
        (D.seen d.old) (D.seen d.new)) }
    ensures rest { D.is_modelled → OnOk result (IsAtRest D.Disk d.new) }
    // Where nothing was pending, that holds of each outcome, or nothing has changed in it.
    ensures time { D.is_modelled
        → IsAtRest D.Disk d.old
        → (bound : ℕ)
        → block < bound
        → IsOverlaid store.now bound view.old (D.seen d.old)
        → Adds D.moment D.outcomes d.old d.new
        (LeavesOverlaid store.now bound view.old block from.now (D.told d.old) (D.seen d.old)) }
    // It touches the store alone, and never the partition.
    ensures touches { Touches D.Disk
        (IsOverlaying store.now view.old block from.now (D.seen d.old)) d.old d.new }
    ensures unwritten { CallsNone d.old d.new result }
    ensures counts { CountsFaults D.Disk d.old d.new result }
{
    let have = store.len();
    let needed = need(view.count() + 1);
    if have < needed {
        return Err(OverlayFault::Full(needed, have));
    }
    let chunk = view.free_chunk(Chunk::One)?;
    let next = view.with_chunk(block, chunk)?;
    write_entry(d, store, view, block, chunk, from)?;
    *view = next;
    Ok(())
}
