//! The table that is left of an image of a `super`.

ghost use Rattle.std.specs.Prelude.{◌≡◌, ℕ, ◌≤◌, map, IfOk};
ghost use Rattle.vab_tables.specs.Rules.{KeepsRules};
ghost use Rattle.vab_tables.specs.Spelling.{table_size_of};
ghost use Rattle.vab_layout.specs.Layout.{layout_of};
ghost use Rattle.vab_layout.specs.Slots.{IsOwn};
ghost use Rattle.vab_super_image.specs.SuperImage.{first_filled, emptied, wiped, wiped_layout};

use std::alloc::Global;
use vab_bytes::{Listing, Name36};
use vab_tables::{NoMemory, Partition, Table};

/// The flag of a device with Virtual A/B.
const VIRTUAL_AB: u32 = 1;

/// The name of the first partition with extents, in the order of the table.
pub fn first_filled(table: &Table) -> Option<Name36>
    ensures { result ≡ first_filled table.now.partitions }
{
    for partition in table.partitions.as_slice() {
        if partition.extent_count != 0 {
            return Some(partition.name);
        }
    }
    None
}

// The partitions without extents.
fn emptied(alloc: Global, partitions: &[Partition]) -> Result<Vec<Partition>, NoMemory>
    ensures { IfOk result (λ v. v.items ≡ map emptied partitions.now) }
{
    let mut empty = Vec::new(alloc);
    for partition in partitions {
        empty.push(Partition {
            first_extent: 0,
            extent_count: 0,
            ..*partition
        })?;
    }
    Ok(empty)
}

// The table without extents, of minor version 2, with the flag of Virtual A/B.
#[tactic(auto, unfolding(crate::specs::SuperImage::wiped))]
fn made(alloc: Global, table: &Table) -> Result<Table, NoMemory>
    ensures { IfOk result (λ t. t ≡ wiped table.now) }
{
    let partitions = emptied(alloc, table.partitions.as_slice())?;
    let groups = Vec::from_slice(alloc, table.groups.as_slice())?;
    let devices = Vec::from_slice(alloc, table.devices.as_slice())?;
    Ok(Table {
        partitions: Listing::from_vec(partitions),
        extents: Listing::from_vec(Vec::new(alloc)),
        groups: Listing::from_vec(groups),
        devices: Listing::from_vec(devices),
        minor: 2,
        flags: table.flags | VIRTUAL_AB,
    })
}

/// The table without extents, of minor version 2, with the flag of Virtual A/B. A slot's own
/// partitions keep their rules. `NoMemory` where memory is refused.
pub fn wiped(alloc: Global, table: &Table) -> Result<Table, NoMemory>
    requires keeps { KeepsRules table.now }
    ensures is { IfOk result (λ t. t ≡ wiped table.now) }
    ensures rules { IfOk result KeepsRules }
    ensures layout { IfOk result (λ t. layout_of t ≡ wiped_layout (layout_of table.now)) }
    ensures own { IfOk result (λ t. (slot : ℕ)
        → IsOwn slot (layout_of table.now).parts
        → IsOwn slot (layout_of t).parts) }
    ensures size { IfOk result (λ t. table_size_of t ≤ table_size_of table.now) }
{
    match made(alloc, table) {
        Ok(table) => Ok(table),
        Err(refused) => Err(refused),
    }
}
