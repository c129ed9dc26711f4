// Which sector each block of a partition begins at.
ghost use Rattle.std.specs.Prelude.{◌≡◌, ◌<◌, ◌+◌, ◌*◌, ◌^◌, length, slice_index, sum_by, All};
ghost use Rattle.std.specs.Prelude.{IfOk};
ghost use Rattle.vab_linear.specs.Map.{blocks_of, run_of};

use std::alloc::Global;
use std::marker::Model;
use vab_disk::NoMemory;
use vab_gate::BLOCK_SECTORS;

// Blocks that follow one another on the disk.
#[derive(Clone, Copy, Debug, PartialEq, Eq)]
struct Run {
    first: u64,
    blocks: u64,
}

/// A partition: runs of blocks of 4096 bytes, one after another. Contracts see the list of its
/// blocks, each as its first sector of 512 bytes.
#[derive(Drop)]
pub struct Map {
    runs: Vec<Run>,
    count: u64,
}

impl Model for Map {
    ghost use Rattle.std.specs.Prelude.{ℕ, List};

    ghost Value = { List ℕ };

    ghost use Rattle.vab_linear.specs.Held.{held_of, IsHeld};

    ghost view = { λ m. held_of m.runs.items };

    ghost invariant = { λ m. IsHeld m.runs.items m.count };
}

impl Map {
    /// The partition of these runs in this order, each a pair of its first sector and its length in
    /// sectors. Sectors after the last whole block of a run are no part of it.
    pub fn new(alloc: Global, runs: &[(u64, u64)]) -> Result<Map, NoMemory>
        requires ends { All (λ r. r.0 + r.1 < 2 ^ 63) runs.now }
        requires sum { sum_by (λ r. r.1) runs.now < 2 ^ 63 }
        ensures { IfOk result (λ m. m ≡ blocks_of runs.now) }
    {
        let mut held = Vec::new(alloc);
        let mut count = 0;
        for run in runs {
            let blocks = run.1 / BLOCK_SECTORS;
            held.push(Run {
                first: run.0,
                blocks,
            })?;
            count += blocks;
        }
        Ok(Map { runs: held, count })
    }

    /// The blocks that stand one behind another from this sector on, so many of them.
    pub fn physical(alloc: Global, first: u64, blocks: u64) -> Result<Map, NoMemory>
        requires { first + 8 * blocks < 2 ^ 63 }
        ensures { IfOk result (λ m. m ≡ run_of first blocks) }
    {
        Map::new(alloc, &[(first, BLOCK_SECTORS * blocks)])
    }

    /// How many blocks there are.
    pub fn len(&self) -> u64
        ensures count { result ≡ length self.now }
        ensures small { result < 2 ^ 60 }
    {
        self.count
    }

    /// The first sector of a block, which are counted from 0.
    pub fn sector_of(&self, block: u64) -> u64
        requires { block < length self.now }
        ensures sector { result ≡ slice_index self.now block }
        ensures small { result < 2 ^ 63 }
    {
        let mut left = block;
        for run in &self.runs {
            if left < run.blocks {
                return run.first + BLOCK_SECTORS * left;
            }
            left -= run.blocks;
        }
        unreachable!()
    }
}
