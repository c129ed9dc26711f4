//! Blocks that are copied from the store to the partition.

ghost use Rattle.std.specs.Prelude.{◌≡◌, ℕ, ◌<◌, ◌≤◌, length, OnOk};
ghost use Rattle.vab_space.specs.Chunks.{chunks_for};
ghost use Rattle.vab_disk.specs.Calls.{InSectors, Touches, FailsWithDisk};
ghost use Rattle.vab_store.specs.Layout.{chunks_of, IsOnDisk, IsApart, AreDisjoint};
ghost use Rattle.vab_store.specs.View.{Fits};
ghost use Rattle.vab_merge.specs.Copied.{InChunk, InCopied, IsCopied, AreCopied};

use vab_disk::Disk;
use vab_exceptions::Exception;
use vab_gate::DiskFault;
use vab_linear::{Map, read_at, write_at};
use vab_space::Chunk;
use vab_store::StoreView;

// Copies the blocks of an exception's chunk that the partition has.
fn copy_chunk<D: Disk>(
    d: &mut D,
    base: &Map,
    store: &Map,
    exception: Exception,
    chunk: Chunk,
) -> Result<(), DiskFault>
    requires old_chunk { exception.old_chunk < chunks_for chunk (length base.now) }
    requires new_chunk { exception.new_chunk < chunks_of chunk store.now }
    requires base_on_disk { IsOnDisk base.now (D.size d.old) }
    requires store_on_disk { IsOnDisk store.now (D.size d.old) }
    requires base_apart { D.is_modelled → IsApart base.now }
    requires disjoint { D.is_modelled → AreDisjoint base.now store.now }
    ensures copied { D.is_modelled → OnOk result
        (IsCopied chunk base.now store.now exception (D.seen d.old) (D.seen d.new)) }
    ensures touches { Touches D.Disk
        (InSectors (InChunk chunk base.now exception.old_chunk)) d.old d.new }
    ensures faults { FailsWithDisk D.Disk d.old d.new result }
{
    let blocks = base.len();
    let _blocks_of_store = store.len();
    let to = chunk.block_in(exception.old_chunk, 0);
    let from = chunk.block_in(exception.new_chunk, 0);
    let mut block = [0; 4096];
    for place in 0..chunk.blocks().min(blocks - to) {
        read_at(d, store, from + place, &mut block)?;
        write_at(d, base, to + place, &block)?;
    }
    Ok(())
}

/// Copies the chunks of the exceptions from `first` on to their places in the partition, as far as
/// it goes, and doesn't sync.
pub(crate) fn copy_blocks<D: Disk>(
    d: &mut D,
    base: &Map,
    store: &Map,
    view: &StoreView,
    first: u64,
    chunk: Chunk,
) -> Result<(), DiskFault>
    requires fits { Fits chunk (length base.now) store.now view.now }
    requires base_on_disk { IsOnDisk base.now (D.size d.old) }
    requires store_on_disk { IsOnDisk store.now (D.size d.old) }
    requires base_apart { D.is_modelled → IsApart base.now }
    requires disjoint { D.is_modelled → AreDisjoint base.now store.now }
    requires first { first ≤ length view.now }
    ensures copied { D.is_modelled → OnOk result
        (AreCopied chunk base.now store.now view.now first (length view.now)
        (D.seen d.old) (D.seen d.new)) }
    ensures touches { Touches D.Disk
        (InSectors (InCopied chunk base.now view.now first)) d.old d.new }
    ensures faults { FailsWithDisk D.Disk d.old d.new result }
{
    for j in first..view.count() {
        copy_chunk(d, base, store, view.at(j), chunk)?;
    }
    Ok(())
}
