//! Blocks in their order, as runs of consecutive numbers.

ghost use Rattle.std.specs.Prelude.{◌≡◌, ◌↔◌, ◌==◌, ◌+◌, ◌<◌, ◌^◌, ◌++◌, [], length, take, drop};
ghost use Rattle.std.specs.Prelude.{All, IfOk, OnErr, OnOk, IsTrue};
ghost use Rattle.std.specs.List.{list_any, range_with_len};
ghost use Rattle.std.specs.List.Sorted.{IsNonDecreasingBy};
ghost use Rattle.vab_blocks.specs.Blocks.{is_distinct};
ghost use Rattle.vab_blocks.specs.Runs.{blocks_of_runs, runs_of};

use std::alloc::Global;
use std::marker::Model;
use vab_tables::NoMemory;

/// Numbers of blocks in their order, in the memory of their maximal runs: pairs of a first number
/// and how many numbers there are. Contracts see the list of the numbers.
#[derive(Debug, Drop)]
pub struct Blocks {
    runs: Vec<(u64, u64)>,
}

impl Model for Blocks {
    ghost use Rattle.std.specs.Prelude.{List, ℕ};
    ghost use Rattle.vab_blocks.specs.Runs.{blocks_of_runs, AreMaximal};

    ghost Value = { List ℕ };

    ghost view = { λ b. blocks_of_runs b.runs.items };

    ghost invariant = { λ b. AreMaximal b.runs.items };
}

impl Blocks {
    /// No block.
    pub fn new(alloc: Global) -> Blocks
        ensures { result ≡ [] }
    {
        Blocks {
            runs: Vec::new(alloc),
        }
    }

    /// Consecutive blocks. `NoMemory` where memory is refused.
    pub fn consecutive(alloc: Global, first: u64, count: u64) -> Result<Blocks, NoMemory>
        requires { first + count < 2 ^ 64 }
        ensures { IfOk result (λ b. b ≡ range_with_len first count) }
    {
        let mut blocks = Blocks::new(alloc);
        blocks.push_run(first, count)?;
        Ok(blocks)
    }

    /// The same blocks in memory of their own. `NoMemory` where memory is refused.
    pub fn copy(&self, alloc: Global) -> Result<Blocks, NoMemory>
        ensures { IfOk result (λ b. b ≡ self.now) }
    {
        let runs = Vec::from_slice(alloc, &self.runs)?;
        Ok(Blocks { runs })
    }

    /// Writes consecutive blocks at the end. `NoMemory` where memory is refused; the blocks are
    /// then as they were.
    pub fn push_run(&mut self, first: u64, count: u64) -> Result<(), NoMemory>
        requires { first + count < 2 ^ 64 }
        ensures ok { OnOk result (self.new ≡ self.old ++ range_with_len first count) }
        ensures err { OnErr result (self.new ≡ self.old) }
    {
        if count == 0 {
            return Ok(());
        }
        let end = self.runs.len();
        if end > 0 && touches(self.runs[end - 1], first) {
            self.runs[end - 1].1 += count;
            return Ok(());
        }
        self.runs.push((first, count))?;
        Ok(())
    }

    /// Writes blocks at the end. Where memory is refused, `NoMemory`, a part of them may be
    /// written.
    pub fn append(&mut self, other: &Blocks) -> Result<(), NoMemory>
        ensures { OnOk result (self.new ≡ self.old ++ other.now) }
    {
        for run in other.runs() {
            self.push_run(run.0, run.1)?;
        }
        Ok(())
    }

    /// Writes `count` blocks of others at the end, or as many as there are, from the one with the
    /// index `skip` on. Where memory is refused, `NoMemory`, a part of them may be written.
    pub fn append_part(&mut self, other: &Blocks, skip: u64, count: u64) -> Result<(), NoMemory>
        ensures { OnOk result (self.new ≡ self.old ++ take count (drop skip other.now)) }
    {
        let mut skip = skip;
        let mut left = count;
        for run in other.runs() {
            let passed = skip.min(run.1);
            let taken = left.min(run.1 - passed);
            self.push_run(run.0 + passed, taken)?;
            skip -= passed;
            left -= taken;
        }
        Ok(())
    }

    /// The first `n` blocks, or all where there are fewer. `NoMemory` where memory is refused.
    pub fn take(&self, alloc: Global, n: u64) -> Result<Blocks, NoMemory>
        ensures { IfOk result (λ b. b ≡ take n self.now) }
    {
        let mut blocks = Blocks::new(alloc);
        blocks.append_part(self, 0, n)?;
        Ok(blocks)
    }

    /// How many blocks there are.
    pub fn len(&self) -> u64
        requires { length self.now < 2 ^ 64 }
        ensures { result ≡ length self.now }
    {
        let mut count = 0;
        for run in self.runs() {
            count += run.1;
        }
        count
    }

    /// Whether there is no block.
    pub fn is_empty(&self) -> bool
        ensures { IsTrue result ↔ (self.now ≡ []) }
    {
        self.runs.is_empty()
    }

    /// Whether this is one of the blocks.
    pub fn contains(&self, block: u64) -> bool
        ensures { result ≡ list_any (λ b. b == block) self.now }
    {
        any_has(self.runs(), block)
    }

    /// Whether no block stands twice. `NoMemory` where memory is refused.
    pub fn is_distinct(&self, alloc: Global) -> Result<bool, NoMemory>
        ensures { IfOk result (λ distinct. distinct ≡ is_distinct self.now) }
    {
        let mut runs = Vec::from_slice(alloc, self.runs())?;
        runs.sort_unstable_by_key(|run| run.0);
        Ok(are_apart(&runs))
    }

    /// The maximal runs of the blocks, in their order: pairs of a first block and how many there
    /// are.
    pub fn runs(&self) -> &[(u64, u64)]
        ensures value { result.now ≡ runs_of self.now }
        ensures fits { All (λ run. run.0 + run.1 < 2 ^ 64) (runs_of self.now) }
        ensures some { All (λ run. 0 < run.1) (runs_of self.now) }
    {
        &self.runs
    }
}

// Whether no block stands twice in these runs, where none begins before an earlier one.
fn are_apart(runs: &[(u64, u64)]) -> bool
    requires up { IsNonDecreasingBy (λ run. run.0) runs.now }
    requires fits { All (λ run. run.0 + run.1 < 2 ^ 64) runs.now }
    requires some { All (λ run. 0 < run.1) runs.now }
    ensures { result ≡ is_distinct (blocks_of_runs runs.now) }
{
    let mut end = 0;
    for run in runs {
        if run.0 < end {
            return false;
        }
        end = run.0 + run.1;
    }
    true
}

// Whether the run ends where another begins.
fn touches(run: (u64, u64), first: u64) -> bool
    ensures { result ≡ (first == run.0 + run.1) }
{
    first.checked_sub(run.0) == Some(run.1)
}

// Whether the block is one of the runs.
fn any_has(runs: &[(u64, u64)], block: u64) -> bool
    ensures { result
        ≡ list_any (λ run. list_any (λ b. b == block) (range_with_len run.0 run.1)) runs.now }
{
    runs.iter().any(|run| has(*run, block))
}

// Whether the block is one of the run.
fn has(run: (u64, u64), block: u64) -> bool
    ensures { result ≡ list_any (λ b. b == block) (range_with_len run.0 run.1) }
{
    block >= run.0 && block - run.0 < run.1
}
