//! A block of the partition, from the store or from the partition itself.

ghost use Rattle.std.specs.Prelude.{◌≡◌, ◌<◌, length, OnOk};
ghost use Rattle.vab_disk.specs.Calls.{OnlyReads, FailsWithDisk};
ghost use Rattle.vab_store.specs.Layout.{IsOnDisk};
ghost use Rattle.vab_store.specs.View.{Fits};
ghost use Rattle.vab_store.specs.Seen.{view_block};

use vab_disk::Disk;
use vab_gate::DiskFault;
use vab_linear::{Map, read_at};
use vab_space::Chunk;
use vab_store::StoreView;

/// Reads a block of the partition `base`: from the store, whose chunks have this size, where an
/// exception has its chunk, else the partition's own block.
pub fn read_block<D: Disk>(
    d: &mut D,
    base: &Map,
    store: &Map,
    view: &StoreView,
    block: u64,
    out: &mut [u8; 4096],
    chunk: Chunk,
) -> Result<(), DiskFault>
    requires block { block < length base.now }
    requires fits { Fits chunk (length base.now) store.now view.now }
    requires base_on_disk { IsOnDisk base.now (D.size d.old) }
    requires store_on_disk { IsOnDisk store.now (D.size d.old) }
    ensures bytes { D.is_modelled → OnOk result
        (out.new ≡ view_block chunk base.now store.now view.now (D.seen d.old) block) }
    ensures reads { OnlyReads D.Disk d.old d.new }
    ensures faults { FailsWithDisk D.Disk d.old d.new result }
{
    let _blocks = store.len();
    match view.chunk_of(chunk.chunk_at(block)) {
        Some(new) => read_at(d, store, chunk.block_in(new, chunk.place_in(block)), out),
        None => read_at(d, base, block, out),
    }
}
