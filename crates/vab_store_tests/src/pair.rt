// A partition and its store, one behind the other on a disk in memory.
ghost use Rattle.std.specs.Prelude.{◌≡◌, ◌+◌, ◌*◌, ◌<◌, ◌≤◌, ◌^◌, length, IfOk, IfSome, IsTrue};
ghost use Rattle.std.specs.List.Sorted.{IsStrictlyIncreasing};
ghost use Rattle.vab_linear.specs.Map.{run_of};
ghost use Rattle.vab_store.specs.View.{Fits};

use std::alloc::Global;
use std::test::*;
use vab_disk::{Disk, MemPort};
use vab_gate::settle;
use vab_linear::Map;
use vab_merge::{Ran, run_turn};
use vab_scan::{ends_clean, scan};
use vab_snapread::read_block;
use vab_space::{Chunk, need_at};
use vab_store::{StoreFault, StoreView, write_store};

/// The partition stands from sector 0 on, and its store right behind it.
#[derive(Drop)]
pub(crate) struct Pair {
    pub(crate) base: Map,
    pub(crate) store: Map,
    pub(crate) blocks: u64,
    /// Blocks of the store.
    pub(crate) room: u64,
    pub(crate) chunk: Chunk,
    ghost base_is: { base ≡ run_of 0 blocks },
    ghost store_is: { store ≡ run_of (8 * blocks) room },
    ghost small: { 8 * (blocks + room) < 2 ^ 50 },
}

// Blocks that follow one another from a sector on.
pub(crate) fn partition(alloc: Global, first: u64, blocks: u64) -> Result<Map, Fail>
    requires { first + 8 * blocks < 2 ^ 60 }
    ensures { IfOk result (λ m. m ≡ run_of first blocks) }
{
    let map = Map::new(alloc, &[(first, 8 * blocks)]);
    match map {
        Ok(map) => Ok(map),
        Err(_) => Err("there is memory for a map")?,
    }
}

/// So many numbers from the first on.
pub(crate) fn ascending(alloc: Global, first: u64, count: u64) -> Result<Vec<u64>, Fail>
    requires { first + count < 2 ^ 60 }
    ensures { IfOk result (λ v. IsStrictlyIncreasing v.items) }
{
    let mut numbers = Vec::new(alloc);
    for i in 0..count {
        numbers.push(first + i)?;
    }
    Ok(numbers)
}

/// An image whose blocks begin with so many bytes of their number, and have zeros behind them.
pub(crate) fn image(alloc: Global, blocks: u8, filled: usize) -> Result<Vec<u8>, Fail> {
    let mut bytes = Vec::new(alloc);
    for block in 0..blocks {
        for byte in begun(block, filled) {
            bytes.push(byte)?;
        }
    }
    Ok(bytes)
}

// A block that begins with so many of these bytes, and has zeros behind them.
fn begun(byte: u8, filled: usize) -> [u8; 4096] {
    let mut bytes = [0; 4096];
    bytes[..filled.min(4096)].fill(byte);
    bytes
}

impl Pair {
    /// A partition and a store of so many blocks, with chunks of this size.
    pub(crate) fn new(alloc: Global, blocks: u64, room: u64, chunk: Chunk) -> Result<Pair, Fail>
        requires { 8 * (blocks + room) < 2 ^ 50 }
    {
        let base = partition(alloc, 0, blocks)?;
        let store = partition(alloc, 8 * blocks, room)?;
        Ok(Pair {
            base,
            store,
            blocks,
            room,
            chunk,
        })
    }

    /// A disk of zeros for both.
    pub(crate) fn disk(&self, alloc: Global) -> Result<MemPort, Fail> {
        let sectors = 8 * (self.blocks + self.room);
        let port = MemPort::new(alloc, sectors, Vec::new(alloc));
        Ok(port.ok().ok_or("there is memory for a disk")?)
    }

    /// Whether both lie on the disk.
    pub(crate) fn lies_on(&self, d: &MemPort) -> bool
        ensures { IsTrue result → 8 * (self.now.blocks + self.now.room) ≤ d.now.count }
    {
        8 * (self.blocks + self.room) <= d.sectors()
    }

    /// Writes a store for these chunks, and syncs.
    pub(crate) fn write(&self, d: &mut MemPort, olds: &[u64], image: &[u8]) -> bool
        requires { IsStrictlyIncreasing olds.now }
    {
        if !self.lies_on(d) || need_at(olds.len() as u64, self.chunk) > self.room {
            return false;
        }
        write_store(d, &self.store, olds, image, self.chunk).is_ok() && settle(d).is_ok()
    }

    /// The exceptions of the store.
    pub(crate) fn scan(&self, alloc: Global, d: &mut MemPort) -> Option<StoreView>
        ensures { IfSome result (Fits self.now.chunk self.now.blocks self.now.store) }
    {
        if !self.lies_on(d) {
            return None;
        }
        scan(alloc, d, &self.store, self.blocks, self.chunk).ok()
    }

    /// Whether a list of so many exceptions ends clean, of a store with chunks of one block.
    pub(crate) fn ends_clean(&self, d: &mut MemPort, count: u64) -> Option<bool> {
        if !self.lies_on(d) || count > self.room || need_at(count, Chunk::One) > self.room {
            return None;
        }
        ends_clean(d, &self.store, count).ok()
    }

    /// What is wrong with the store, where it lies on the disk.
    pub(crate) fn fault(&self, alloc: Global, d: &mut MemPort) -> Option<StoreFault> {
        if !self.lies_on(d) {
            return None;
        }
        scan(alloc, d, &self.store, self.blocks, self.chunk).err()
    }

    /// Whether a block that is read through the store holds these bytes.
    pub(crate) fn reads(
        &self,
        d: &mut MemPort,
        view: &StoreView,
        block: u64,
        wanted: &[u8; 4096],
    ) -> bool
        requires { Fits self.now.chunk self.now.blocks self.now.store view.now }
    {
        if !self.lies_on(d) || block >= self.blocks {
            return false;
        }
        let mut bytes = [1; 4096];
        read_block(
            d,
            &self.base,
            &self.store,
            view,
            block,
            &mut bytes,
            self.chunk,
        )
        .is_ok()
            && bytes == *wanted
    }

    /// How many exceptions a scan gives, where the partition's blocks begin with so many of these
    /// bytes, each block with one of them, and have zeros behind them.
    pub(crate) fn count(
        &self,
        alloc: Global,
        d: &mut MemPort,
        bytes: &[u8],
        filled: usize,
    ) -> Option<u64> {
        let view = self.scan(alloc, d)?;
        for (block, byte) in bytes.iter().enumerate() {
            if !self.reads(d, &view, block as u64, &begun(*byte, filled)) {
                return None;
            }
        }
        Some(view.count())
    }

    /// What a merge of at most so many did, and how many exceptions are left.
    pub(crate) fn merge(&self, alloc: Global, d: &mut MemPort, most: u64) -> Option<(Ran, u64)>
        requires { 0 < most }
    {
        let mut view = self.scan(alloc, d)?;
        if !self.lies_on(d) {
            return None;
        }
        match run_turn(d, &self.base, &self.store, &mut view, most, self.chunk) {
            Ok(ran) => Some((ran, view.count())),
            Err(_) => None,
        }
    }
}
