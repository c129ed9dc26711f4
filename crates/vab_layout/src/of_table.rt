//! The blocks of a table's partitions.

ghost use Rattle.std.specs.Prelude.{◌≡◌, length, map, IfOk};
ghost use Rattle.vab_tables.specs.Rules.{IsPartition, KeepsRules};
ghost use Rattle.vab_layout.specs.Layout.{layout_of, part_of};
ghost use Rattle.vab_layout.specs.Rules.{IsLayout};

use crate::layout::{Layout, Part};
use std::alloc::Global;
use vab_blocks::Blocks;
use vab_bytes::Listing;
use vab_tables::{NoMemory, Partition, Table};

impl Layout {
    /// The table with each partition's blocks in place of its extents. `NoMemory` where memory is
    /// refused.
    pub fn of_table(alloc: Global, table: &Table) -> Result<Layout, NoMemory>
        requires { KeepsRules table.now }
        ensures value { IfOk result (λ l. l ≡ layout_of table.now) }
        ensures rules { IfOk result IsLayout }
    {
        let parts = parts(alloc, table)?;
        let groups = Vec::from_slice(alloc, table.groups.as_slice())?;
        Ok(Layout {
            parts: Listing::from_vec(parts),
            groups: Listing::from_vec(groups),
            device: table.devices.as_slice()[0],
            flags: table.flags,
        })
    }
}

// The partitions with their blocks.
fn parts(alloc: Global, table: &Table) -> Result<Vec<Part>, NoMemory>
    requires { KeepsRules table.now }
    ensures { IfOk result (λ v. v.items ≡ map (part_of table.now) (table.now).partitions) }
{
    let mut parts = Vec::new(alloc);
    for partition in table.partitions.as_slice() {
        parts.push(part(alloc, table, partition)?)?;
    }
    Ok(parts)
}

// A partition of the table with its blocks.
fn part(alloc: Global, table: &Table, partition: &Partition) -> Result<Part, NoMemory>
    requires table { KeepsRules table.now }
    requires partition { IsPartition (table.now).minor (length (table.now).extents)
        (length (table.now).groups)
        partition.now }
    ensures { IfOk result (λ p. p ≡ part_of table.now partition.now) }
{
    let mut blocks = Blocks::new(alloc);
    blocks.push_extents(table.first_sector(), table.extents_of(partition))?;
    Ok(Part {
        name: partition.name,
        attributes: partition.attributes,
        group: table.groups.as_slice()[partition.group as usize].name,
        blocks,
    })
}
