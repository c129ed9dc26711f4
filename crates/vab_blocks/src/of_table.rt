//! The blocks that partitions of a table have.

ghost use Rattle.std.specs.Prelude.{◌≡◌, ◌↔◌, ◌++◌, ◌≤◌, ℕ, IfOk, OnOk, All, Contains};
ghost use Rattle.std.specs.List.{flat_map};
ghost use Rattle.std.specs.List.Sorted.{IsStrictlyIncreasing};
ghost use Rattle.vab_tables.specs.Rules.{KeepsRules};
ghost use Rattle.vab_blocks.specs.Blocks.{HasBlock, blocks_of_extent, is_among};

use crate::blocks::Blocks;
use crate::runs::Runs;
use std::alloc::Global;
use vab_bytes::Name36;
use vab_tables::{BLOCK_SECTORS, Extent, NoMemory, Table};

impl Runs {
    /// The blocks of the table's partitions that have one of these names. `NoMemory` where memory
    /// is
    /// refused.
    pub fn of_table(alloc: Global, table: &Table, names: &[Name36]) -> Result<Runs, NoMemory>
        requires { KeepsRules table.now }
        ensures ascends { IfOk result (λ r. IsStrictlyIncreasing r) }
        ensures listed { IfOk result (λ r. (b : ℕ)
            → Contains r b ↔ HasBlock table.now names.now b) }
    {
        let first = table.first_sector();
        let mut blocks = Blocks::new(alloc);
        for partition in table.partitions.as_slice() {
            if is_among(names, &partition.name) {
                blocks.push_extents(first, table.extents_of(partition))?;
            }
        }
        Runs::sorted(alloc, &blocks)
    }
}

impl Blocks {
    /// Writes the blocks of extents at the end, where block 0 begins at this sector. Where memory
    /// is refused, `NoMemory`, a part of them may be written.
    pub fn push_extents(&mut self, first_sector: u64, extents: &[Extent]) -> Result<(), NoMemory>
        requires { All (λ e. first_sector ≤ e.first_sector) extents.now }
        ensures { OnOk result (self.new ≡
            self.old ++ flat_map (blocks_of_extent first_sector) extents.now) }
    {
        for extent in extents {
            let from = (extent.first_sector - first_sector) / BLOCK_SECTORS;
            self.push_run(from, extent.sectors / BLOCK_SECTORS)?;
        }
        Ok(())
    }
}

// Whether the name is one of these.
fn is_among(names: &[Name36], name: &Name36) -> bool
    ensures { result ≡ is_among names.now name.now }
{
    names.iter().any(|other| *other == *name)
}
