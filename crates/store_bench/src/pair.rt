//! A partition and its store, one behind the other.

ghost use Rattle.std.specs.Prelude.{◌≡◌, ◌+◌, ◌*◌, ◌<◌, ◌≤◌, ◌^◌, length, IfOk, IfSome, IsTrue};
ghost use Rattle.std.specs.List.Sorted.{IsStrictlyIncreasing};
ghost use Rattle.vab_linear.specs.Map.{run_of};
ghost use Rattle.vab_store.specs.View.{Fits};

use std::alloc::Global;
use vab_disk::{Disk, NoMemory};
use vab_gate::settle;
use vab_linear::Map;
use vab_merge::{Ran, run_turn};
use vab_scan::scan;
use vab_space::{Chunk, need_at};
use vab_store::{StoreView, write_store};

/// The partition stands from sector 0 on, and its store right behind it.
#[derive(Drop)]
pub(crate) struct Pair {
    base: Map,
    store: Map,
    blocks: u64,
    room: u64,
    chunk: Chunk,
    ghost base_is: { base ≡ run_of 0 blocks },
    ghost store_is: { store ≡ run_of (8 * blocks) room },
    ghost small: { 8 * (blocks + room) < 2 ^ 50 },
}

// Blocks that follow one another from a sector on.
fn consecutive(alloc: Global, first: u64, blocks: u64) -> Result<Map, NoMemory>
    requires { first + 8 * blocks < 2 ^ 60 }
    ensures { IfOk result (λ m. m ≡ run_of first blocks) }
{
    Map::new(alloc, &[(first, 8 * blocks)])
}

impl Pair {
    /// A partition of so many blocks, and a store with room for so many, in chunks of this size.
    pub(crate) fn new(alloc: Global, blocks: u64, room: u64, chunk: Chunk) -> Result<Pair, NoMemory>
        requires { 8 * (blocks + room) < 2 ^ 50 }
    {
        let base = consecutive(alloc, 0, blocks)?;
        let store = consecutive(alloc, 8 * blocks, room)?;
        Ok(Pair {
            base,
            store,
            blocks,
            room,
            chunk,
        })
    }

    /// Whether both lie on the disk.
    pub(crate) fn lies_on<D: Disk>(&self, d: &D) -> bool
        ensures { IsTrue result → 8 * (self.now.blocks + self.now.room) ≤ D.size d.now }
    {
        8 * (self.blocks + self.room) <= d.sectors()
    }

    /// Writes a store for these chunks, and syncs.
    pub(crate) fn write<D: Disk>(&self, d: &mut D, olds: &[u64], image: &[u8]) -> bool
        requires { IsStrictlyIncreasing olds.now }
    {
        if !self.lies_on(d) || need_at(olds.len() as u64, self.chunk) > self.room {
            return false;
        }
        write_store(d, &self.store, olds, image, self.chunk).is_ok() && settle(d).is_ok()
    }

    /// The exceptions of the store.
    pub(crate) fn scan<D: Disk>(&self, alloc: Global, d: &mut D) -> Option<StoreView>
        ensures { IfSome result (Fits self.now.chunk self.now.blocks self.now.store) }
    {
        if !self.lies_on(d) {
            return None;
        }
        scan(alloc, d, &self.store, self.blocks, self.chunk).ok()
    }

    /// Merges runs of at most so many exceptions until none is left, and answers how many there
    /// were.
    pub(crate) fn merge<D: Disk>(&self, alloc: Global, d: &mut D, most: u64) -> Option<u64>
        requires { 0 < most }
    {
        let mut view = self.scan(alloc, d)?;
        if !self.lies_on(d) {
            return None;
        }
        for runs in 0..u64::MAX {
            match run_turn(d, &self.base, &self.store, &mut view, most, self.chunk) {
                Ok(Ran::Merged(_)) => {}
                Ok(Ran::Empty) => return Some(runs),
                Err(_) => return None,
            }
        }
        None
    }
}
