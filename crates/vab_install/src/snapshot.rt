//! A partition's image in an exception store.

ghost use Rattle.std.specs.Prelude.{◌≡◌, ℕ, ◌*◌, ◌<◌, ◌≤◌, List, length, All, Ok, IfOk, OnOk};
ghost use Rattle.std.specs.List.Sorted.{IsStrictlyIncreasing};
ghost use Rattle.vab_disk.specs.Calls.{IsAtRest, InSectors, Touches, FailsWithDisk};
ghost use Rattle.vab_space.specs.Chunks.{chunks_for, need_at};
ghost use Rattle.vab_store.specs.Layout.{IsOnDisk, IsApart, AreDisjoint, InFirst};
ghost use Rattle.vab_store.specs.Scan.{scan_of};
ghost use Rattle.vab_store.specs.View.{Fits};
ghost use Rattle.vab_store.specs.Writing.{planned_of};
ghost use Rattle.vab_install.specs.Differing.{differing_of};
ghost use Rattle.vab_install.specs.Snapshot.{HoldsBlocks, HoldsNew, EndsInZeros};
ghost use Rattle.vab_install.specs.Counts.{CountsFaults, ReadsWithout};

use crate::PartFault;
use std::alloc::Global;
use vab_disk::{Disk, NoMemory};
use vab_gate::{DiskFault, settle};
use vab_linear::Map;
use vab_space::Chunk;
use vab_store::{StoreView, write_store};

// Writes a store with these chunks of the image, and syncs.
fn write_planned<D: Disk>(
    d: &mut D,
    store: &Map,
    image: &[u8],
    olds: &[u64],
    chunk: Chunk,
) -> Result<(), DiskFault>
    requires room { need_at (length olds.now) chunk ≤ length store.now }
    requires ascend { IsStrictlyIncreasing olds.now }
    requires on_disk { IsOnDisk store.now (D.size d.old) }
    requires apart { D.is_modelled → IsApart store.now }
    ensures scanned { D.is_modelled → OnOk result
        ((bound : ℕ)
        → All (λ old. old < chunks_for chunk bound) olds.now
        → scan_of chunk store.now bound (D.seen d.new) ≡ Ok (planned_of chunk olds.now)) }
    ensures blocks { D.is_modelled
        → OnOk result (HoldsNew chunk store.now olds.now image.now (D.seen d.new)) }
    ensures settled { D.is_modelled → OnOk result (IsAtRest D.Disk d.new) }
    ensures touches { Touches D.Disk
        (InSectors (InFirst store.now (need_at (length olds.now) chunk))) d.old d.new }
    ensures faults { FailsWithDisk D.Disk d.old d.new result }
{
    match write_store(d, store, olds, image, chunk) {
        Ok(()) => settle(d),
        Err(fault) => Err(fault),
    }
}

/// Writes an image into a store beside its partition: these of its chunks, which ascend, become
/// exceptions. Then it syncs. The exceptions take memory, and where it is refused nothing is
/// written.
pub fn write_snapshot<D: Disk>(
    alloc: Global,
    d: &mut D,
    store: &Map,
    image: &[u8],
    olds: &[u64],
    chunk: Chunk,
) -> Result<StoreView, PartFault>
    requires room { need_at (length olds.now) chunk ≤ length store.now }
    requires ascend { IsStrictlyIncreasing olds.now }
    requires on_disk { IsOnDisk store.now (D.size d.old) }
    requires apart { D.is_modelled → IsApart store.now }
    ensures planned { IfOk result (λ v. v ≡ planned_of chunk olds.now) }
    // A scan of the store gives these exceptions, whatever the blocks held before.
    ensures scanned { D.is_modelled → IfOk result
        (λ v. (blocks : ℕ)
        → All (λ old. old < chunks_for chunk blocks) olds.now
        → scan_of chunk store.now blocks (D.seen d.new) ≡ Ok v) }
    // Read through the store, a partition is the image, where these are all chunks that differ.
    ensures holds { D.is_modelled → IfOk result
        (λ v. (base : List ℕ) (blocks : ℕ)
        → AreDisjoint base store.now
        → olds.now ≡ differing_of chunk base (D.seen d.old) image.now blocks
        → HoldsBlocks chunk base store.now v (D.seen d.new) image.now blocks) }
    // Behind the partition's end the last chunk is filled with zeros.
    ensures filled { D.is_modelled → IfOk result
        (λ v. (blocks : ℕ)
        → length image.now ≤ 4096 * blocks
        → EndsInZeros chunk store.now v (D.seen d.new) blocks) }
    ensures settled { D.is_modelled → OnOk result (IsAtRest D.Disk d.new) }
    ensures fits { IfOk result
        (λ v. (blocks : ℕ)
        → All (λ old. old < chunks_for chunk blocks) olds.now
        → Fits chunk blocks store.now v) }
    // It touches the first blocks of the store alone, as many as it needs.
    ensures touches { Touches D.Disk
        (InSectors (InFirst store.now (need_at (length olds.now) chunk))) d.old d.new }
    ensures unwritten { ReadsWithout D.Disk d.old d.new result }
    ensures counts { CountsFaults D.Disk d.old d.new result }
{
    let view = match StoreView::planned(alloc, olds, chunk) {
        Ok(view) => view,
        Err(NoMemory) => return Err(PartFault::NoMemory),
    };
    match write_planned(d, store, image, olds, chunk) {
        Ok(()) => Ok(view),
        Err(fault) => Err(PartFault::Disk(fault)),
    }
}
