//! The partitions of a table by their names, and how many blocks they have.

ghost use Rattle.std.specs.Prelude.{◌≡◌, ◌≤◌, ◌<◌, ◌^◌, length};
ghost use Rattle.std.specs.List.{filter, list_any};
ghost use Rattle.std.specs.Str.{bytes_eq};
ghost use Rattle.vab_names.specs.Names.{is_of_slot};
ghost use Rattle.vab_tables.specs.Rules.{IsPartition, KeepsRules};
ghost use Rattle.vab_layout.specs.Layout.{blocks_of_partition, layout_of};
ghost use Rattle.vab_layout.specs.Slots.{own_parts, blocks_named, before_of, twins_by};
ghost use Rattle.vab_builder.specs.Sizes.{has_part};
ghost use Rattle.vab_builder.specs.Edits.{group_named};

use vab_bytes::Name36;
use vab_names::{default_group, in_slot, is_of_slot};
use vab_tables::{BLOCK_SECTORS, Partition, Table};

/// How many blocks a partition of the table has.
#[tactic(auto, using(crate::proofs::PartitionLaws::partition_long))]
pub(crate) fn count_blocks(table: &Table, partition: &Partition) -> u64
    requires exists { IsPartition (table.now).minor (length (table.now).extents)
        (length (table.now).groups) partition.now }
    requires small { length (blocks_of_partition table.now partition.now) < 2 ^ 64 }
    ensures { result ≡ length (blocks_of_partition table.now partition.now) }
{
    let extents = table.extents_of(partition);
    extents
        .iter()
        .map(|extent| extent.sectors / BLOCK_SECTORS)
        .sum()
}

// Whether one of these partitions has the name.
fn is_named(name: &[u8], partitions: &[Partition]) -> bool
    ensures { result ≡ list_any (λ p. bytes_eq p.name name.now) partitions.now }
{
    partitions
        .iter()
        .any(|partition| partition.name.text() == name)
}

/// Whether the table has a partition of this name.
pub(crate) fn has_part(name: &[u8], table: &Table) -> bool
    ensures { result ≡ has_part name.now (layout_of table.now).parts }
{
    is_named(name, table.partitions.as_slice())
}

// How many of these partitions are the slot's.
fn count_of_slot(partitions: &[Partition], slot: usize) -> u64
    requires { slot < 2 }
    ensures { result ≡ length (filter (λ p. is_of_slot slot p.name) partitions.now) }
{
    partitions
        .iter()
        .filter(|partition| is_of_slot(partition.name.text(), slot))
        .count() as u64
}

/// How many partitions the slot has.
pub(crate) fn count_own(table: &Table, slot: usize) -> u64
    requires { slot < 2 }
    ensures { result ≡ length (own_parts slot (layout_of table.now).parts) }
{
    count_of_slot(table.partitions.as_slice(), slot)
}

/// How many blocks the first partition of this name has; 0 where there is no such partition.
pub(crate) fn count_named(name: &[u8], table: &Table) -> u64
    requires keeps { KeepsRules table.now }
    requires small { length (blocks_named name.now (layout_of table.now).parts) < 2 ^ 64 }
    ensures { result ≡ length (blocks_named name.now (layout_of table.now).parts) }
{
    let partitions = table.partitions.as_slice();
    for partition in partitions {
        if partition.name.text() == name {
            return count_blocks(table, partition);
        }
    }
    0
}

/// How many blocks the twin of the same base name has: the source's partition of it, or none where
/// the target stands apart.
pub(crate) fn count_before(source: &Table, slot: usize, name: &Name36, apart: bool) -> u64
    requires slot { slot < 2 }
    requires keeps { KeepsRules source.now }
    requires long { 2 ≤ length name.now }
    requires small { length
        (before_of slot (twins_by apart (layout_of source.now).parts) name.now)
        < 2 ^ 64 }
    ensures { result
        ≡ length (before_of slot (twins_by apart (layout_of source.now).parts) name.now) }
{
    if apart {
        0
    } else {
        count_named(in_slot(name, 1 - slot).text(), source)
    }
}

/// The group of the first partition of this name, or that of no slot.
pub(crate) fn group_named(name: &[u8], table: &Table) -> Name36
    requires { KeepsRules table.now }
    ensures { result ≡ group_named name.now (layout_of table.now).parts }
{
    let partitions = table.partitions.as_slice();
    for partition in partitions {
        if partition.name.text() == name {
            return table.groups.as_slice()[partition.group as usize].name;
        }
    }
    default_group()
}
