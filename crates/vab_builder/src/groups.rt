//! Groups, and the blocks of a slot's partitions in one.

ghost use Rattle.std.specs.Prelude.{◌≡◌, ◌≤◌, ◌<◌, ◌^◌, ◌||◌, sum, Contains};
ghost use Rattle.vab_tables.specs.Rules.{KeepsRules};
ghost use Rattle.vab_layout.specs.Layout.{layout_of, group_at};
ghost use Rattle.vab_layout.specs.Plain.{own_groups};
ghost use Rattle.vab_layout.specs.Slots.{own_parts, IsOwn};
ghost use Rattle.vab_builder.specs.Sizes.{is_within, limit_of, sizes_in};
ghost use Rattle.vab_builder.specs.Edits.{first_group};
ghost use Rattle.vab_builder.specs.Passes.{created_group_sum, created_group_limit};
ghost use Rattle.vab_builder.specs.Passes.{resized_group_sum, resized_group_limit};
ghost use Rattle.vab_builder.specs.Sums.{size_in};

use crate::counts::{count_blocks, group_named};
use vab_bytes::Name36;
use vab_names::{default_group, is_of_slot};
use vab_space::group_sum;
use vab_tables::{Group, Partition, Table};

/// Whether so many bytes are within a limit, where 0 is none.
pub(crate) fn is_within(sum: u64, limit: u64) -> bool
    ensures { result ≡ is_within sum limit }
{
    limit == 0 || sum <= limit
}

/// The limit of the group of this name, in bytes; 0 is none.
pub(crate) fn limit_of(groups: &[Group], name: &[u8]) -> u64
    ensures { result ≡ limit_of groups.now name.now }
{
    for group in groups {
        if group.name.text() == name {
            return group.maximum_size;
        }
    }
    0
}

/// The slot's first group, or that of no slot.
pub(crate) fn first_group(groups: &[Group], slot: usize) -> Name36
    requires { slot < 2 }
    ensures { result ≡ first_group (own_groups slot groups.now) }
{
    for group in groups {
        if is_of_slot(group.name.text(), slot) {
            return group.name;
        }
    }
    default_group()
}

// The name of the group of a partition.
fn group_of(table: &Table, partition: &Partition) -> Name36
    requires keeps { KeepsRules table.now }
    requires listed { Contains (table.now).partitions partition.now }
    ensures { result ≡ group_at (table.now).groups (partition.now).group }
{
    table.groups.as_slice()[partition.group as usize].name
}

// What a partition adds to the blocks of the slot's partitions in a group, where the one of this
// name has so many.
fn size_in(
    table: &Table,
    partition: &Partition,
    slot: usize,
    group: &Name36,
    name: &[u8],
    count: u64,
) -> u64
    requires slot { slot < 2 }
    requires keeps { KeepsRules table.now }
    requires own { IsOwn slot (layout_of table.now).parts }
    requires listed { Contains (table.now).partitions partition.now }
    ensures { result ≡ size_in slot table.now group.now name.now count partition.now }
{
    if is_of_slot(partition.name.text(), slot) && group_of(table, partition) == *group {
        let is_changed = partition.name.text() == name;
        if is_changed {
            count
        } else {
            count_blocks(table, partition)
        }
    } else {
        0
    }
}

/// The blocks of the slot's partitions in a group, where the one of this name has so many.
pub(crate) fn group_blocks(
    table: &Table,
    slot: usize,
    group: &Name36,
    name: &[u8],
    count: u64,
) -> u64
    requires slot { slot < 2 }
    requires keeps { KeepsRules table.now }
    requires own { IsOwn slot (layout_of table.now).parts }
    requires small { count ≤ 2 ^ 28 }
    ensures { result
        ≡ sum (sizes_in group.now name.now count (own_parts slot (layout_of table.now).parts)) }
{
    let partitions = table.partitions.as_slice();
    let mut blocks = 0;
    for partition in partitions {
        blocks += size_in(table, partition, slot, group, name, count);
    }
    blocks
}

/// Bytes in the group of a partition more, of so many blocks, and the group's limit.
pub(crate) fn created_group(table: &Table, slot: usize, name: &[u8], count: u64) -> (u64, u64)
    requires slot { slot < 2 }
    requires keeps { KeepsRules table.now }
    requires own { IsOwn slot (layout_of table.now).parts }
    requires small { count ≤ 2 ^ 28 }
    ensures sum { result.0 ≡ created_group_sum slot (layout_of table.now) name.now count }
    ensures limit { result.1 ≡ created_group_limit slot (layout_of table.now) }
{
    let groups = table.groups.as_slice();
    let group = first_group(groups, slot);
    let others = group_blocks(table, slot, &group, name, count);
    (group_sum(&[others, count]), limit_of(groups, group.text()))
}

/// Bytes in the group of the partition of this name, where it has so many blocks, and the group's
/// limit.
pub(crate) fn resized_group(table: &Table, slot: usize, name: &[u8], count: u64) -> (u64, u64)
    requires slot { slot < 2 }
    requires keeps { KeepsRules table.now }
    requires own { IsOwn slot (layout_of table.now).parts }
    requires small { count ≤ 2 ^ 28 }
    ensures sum { result.0 ≡ resized_group_sum slot (layout_of table.now) name.now count }
    ensures limit { result.1 ≡ resized_group_limit (layout_of table.now) name.now }
{
    let group = group_named(name, table);
    let all = group_blocks(table, slot, &group, name, count);
    let limit = limit_of(table.groups.as_slice(), group.text());
    (group_sum(&[all]), limit)
}
