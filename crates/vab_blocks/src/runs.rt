//! Ascending numbers of blocks.

ghost use Rattle.std.specs.Prelude.{◌≡◌, ◌↔◌, ◌==◌, ℕ, ◌+◌, ◌-◌, ◌<◌, ◌^◌, ◌++◌, nat_lt};
ghost use Rattle.std.specs.Prelude.{if◌then◌else◌, length, take, All, Contains, IfOk, IfSome, OnOk};
ghost use Rattle.std.specs.Prelude.{IsTrue, Some, None};
ghost use Rattle.std.specs.List.{list_any, range_with_len};
ghost use Rattle.std.specs.List.Sorted.{IsNonDecreasingBy, IsStrictlyIncreasing};
ghost use Rattle.vab_blocks.specs.Blocks.{free_below};
ghost use Rattle.vab_blocks.specs.Runs.{blocks_of_runs, runs_of, IsAscending};

use crate::blocks::Blocks;
use std::alloc::Global;
use std::marker::Model;
use vab_tables::NoMemory;

/// Numbers of blocks, each once; contracts see the list of them, which ascends.
#[derive(Debug, Drop)]
pub struct Runs {
    blocks: Blocks,
}

impl Model for Runs {
    ghost use Rattle.std.specs.Prelude.{List, ℕ};
    ghost use Rattle.vab_blocks.specs.Runs.{IsAscending};

    ghost Value = { List ℕ };

    ghost view = { λ r. r.blocks };

    ghost invariant = { λ r. IsAscending r.blocks };
}

impl Runs {
    /// These numbers in ascending order, each once. `NoMemory` where memory is refused.
    pub fn sorted(alloc: Global, blocks: &Blocks) -> Result<Runs, NoMemory>
        ensures ascends { IfOk result (λ r. IsStrictlyIncreasing r) }
        ensures listed { IfOk result (λ r. (b : ℕ) → Contains r b ↔ Contains blocks.now b) }
    {
        let mut runs = Vec::from_slice(alloc, blocks.runs())?;
        runs.sort_unstable_by_key(|run| run.0);
        let blocks = merged(alloc, &runs)?;
        Ok(Runs { blocks })
    }

    /// The numbers below `cap` that are not taken. `NoMemory` where memory is refused.
    pub fn free(alloc: Global, cap: u64, taken: &Runs) -> Result<Runs, NoMemory>
        ensures value { IfOk result (λ r. r ≡ free_below cap taken.now) }
        ensures ascends { IfOk result (λ r. IsStrictlyIncreasing r) }
    {
        let mut blocks = Blocks::new(alloc);
        let mut at = 0;
        for run in taken.runs() {
            push_gap(&mut blocks, at, run.0.min(cap))?;
            at = run.0 + run.1;
        }
        push_gap(&mut blocks, at, cap)?;
        Ok(Runs { blocks })
    }

    /// The `n` lowest of these numbers, or `None` exactly where there are fewer than `n`.
    /// `NoMemory`
    /// where memory is refused.
    pub fn take_lowest(&self, alloc: Global, n: u64) -> Result<Option<Runs>, NoMemory>
        ensures value { IfOk result
            (λ o. o ≡ (if nat_lt (length self.now) n then None else Some (take n self.now))) }
        ensures ascends { IfOk result (λ o. IfSome o (λ r. IsStrictlyIncreasing r)) }
    {
        if self.count() < n {
            return Ok(None);
        }
        let blocks = self.blocks.take(alloc, n)?;
        Ok(Some(Runs { blocks }))
    }

    /// Whether this is one of the numbers.
    pub fn contains(&self, block: u64) -> bool
        ensures value { result ≡ list_any (λ b. b == block) self.now }
        ensures listed { IsTrue result ↔ Contains self.now block }
    {
        self.blocks.contains(block)
    }

    /// How many numbers there are.
    pub fn count(&self) -> u64
        ensures { result ≡ length self.now }
    {
        self.blocks.len()
    }

    /// The numbers, as blocks in their order.
    pub fn as_blocks(&self) -> &Blocks
        ensures value { result.now ≡ self.now }
        ensures ascends { IsStrictlyIncreasing self.now }
    {
        &self.blocks
    }

    /// The maximal runs of the numbers, in their order: pairs of a first number and how many there
    /// are.
    pub fn runs(&self) -> &[(u64, u64)]
        ensures value { result.now ≡ runs_of self.now }
        ensures fits { All (λ run. run.0 + run.1 < 2 ^ 64) (runs_of self.now) }
        ensures ascends { IsStrictlyIncreasing self.now }
    {
        self.blocks.runs()
    }
}

// The numbers of these runs in ascending order, each once, where no run begins before an earlier
// one.
fn merged(alloc: Global, runs: &[(u64, u64)]) -> Result<Blocks, NoMemory>
    requires up { IsNonDecreasingBy (λ run. run.0) runs.now }
    requires fits { All (λ run. run.0 + run.1 < 2 ^ 64) runs.now }
    ensures ascends { IfOk result (λ b. IsAscending b) }
    ensures listed { IfOk result (λ r. (b : ℕ)
        → Contains r b ↔ Contains (blocks_of_runs runs.now) b) }
{
    let mut all = Blocks::new(alloc);
    let mut end = 0;
    for run in runs {
        let until = run.0 + run.1;
        if end < until {
            let from = run.0.max(end);
            all.push_run(from, until - from)?;
            end = until;
        }
    }
    Ok(all)
}

// Writes the numbers between two at the end: none where the second is not above the first.
fn push_gap(blocks: &mut Blocks, from: u64, to: u64) -> Result<(), NoMemory>
    ensures { OnOk result (blocks.new ≡ blocks.old ++ range_with_len from (to - from)) }
{
    blocks.push_run(from, to.saturating_sub(from))
}
