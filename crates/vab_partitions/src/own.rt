//! A slot's own partitions, judged in the order of the table.

ghost use Rattle.std.specs.Prelude.{◌≡◌, ◌<◌, ◌≤◌, ◌+◌, ◌^◌, ◌++◌, ◌&&◌, ◌||◌, true, nat_le};
ghost use Rattle.std.specs.Prelude.{nat_lt};
ghost use Rattle.std.specs.Prelude.{length, [], IfOk, IfNone, OnOk};
ghost use Rattle.std.specs.Str.{bytes_eq};
ghost use Rattle.vab_names.specs.Names.{is_base, is_of_slot, base_of, default_name};
ghost use Rattle.vab_names.specs.Names.{most_partitions};
ghost use Rattle.vab_tables.specs.Rules.{KeepsRules, IsPartition};
ghost use Rattle.vab_layout.specs.Layout.{layout_of, group_at, blocks_of_parts};
ghost use Rattle.vab_layout.specs.Layout.{blocks_of_partition};
ghost use Rattle.vab_layout.specs.Slots.{own_parts, IsOwn};
ghost use Rattle.vab_partitions.specs.Rules.{is_distinct, bad_part};

use crate::extents::is_small;
use std::alloc::Global;
use vab_blocks::Blocks;
use vab_bytes::Name36;
use vab_names::{base_of, default_group, is_of_slot, parse_base};
use vab_tables::{NoMemory, Partition, Table};

/// Whether the group is that of no slot or one of this slot.
pub(crate) fn is_group_of(name: &Name36, slot: usize) -> bool
    requires { slot < 2 }
    ensures { result ≡ (bytes_eq name.now default_name || is_of_slot slot name.now) }
{
    *name == default_group() || is_of_slot(name.text(), slot)
}

/// Whether the name has a base name before the slot's suffix.
pub(crate) fn has_base(name: &Name36) -> bool
    requires { 1 < length name.now }
    ensures { result ≡ is_base (base_of name.now) }
{
    parse_base(base_of(name.text())).is_some()
}

/// Whether a partition of the slot may be one of its own behind `count` others, but for its size
/// and its blocks.
fn passes_alone(
    table: &Table,
    partition: &Partition,
    slot: usize,
    count: usize,
    most: usize,
) -> bool
    requires slot { slot < 2 }
    requires keeps { KeepsRules table.now }
    requires group { partition.now.group < length table.now.groups }
    requires long { 1 < length partition.now.name }
    ensures { result
        ≡ (is_base (base_of partition.now.name)
        && (bytes_eq (group_at table.now.groups partition.now.group) default_name
        || is_of_slot slot (group_at table.now.groups partition.now.group))
        && nat_lt count most) }
{
    let group = &table.groups.as_slice()[partition.group as usize];
    has_base(&partition.name) && is_group_of(&group.name, slot) && count < most
}

/// Writes the blocks of a partition at the end.
pub(crate) fn push_blocks(
    blocks: &mut Blocks,
    table: &Table,
    partition: &Partition,
) -> Result<(), NoMemory>
    requires keeps { KeepsRules table.now }
    requires extents { partition.now.first_extent + partition.now.extent_count
        ≤ length table.now.extents }
    ensures { OnOk result (blocks.new ≡ blocks.old ++ blocks_of_partition table.now partition.now) }
{
    blocks.push_extents(table.first_sector(), table.extents_of(partition))
}

/// The blocks of all own partitions of a slot, in the order of the table.
pub(crate) fn own_blocks(alloc: Global, table: &Table, slot: usize) -> Result<Blocks, NoMemory>
    requires slot { slot < 2 }
    requires keeps { KeepsRules table.now }
    ensures { IfOk result (λ b. b ≡ blocks_of_parts (own_parts slot (layout_of table.now).parts)) }
{
    let mut blocks = Blocks::new(alloc);
    for partition in table.partitions.as_slice() {
        if is_of_slot(partition.name.text(), slot) {
            push_blocks(&mut blocks, table, partition)?;
        }
    }
    Ok(blocks)
}

/// Whether a partition of the slot may stand behind `count` own ones whose blocks are those that
/// were seen; its blocks are put behind them where it may. `apart` tells that no block stands
/// twice in all own partitions, so that it need not be judged again.
fn joins(
    alloc: Global,
    table: &Table,
    seen: &mut Blocks,
    partition: &Partition,
    slot: usize,
    count: usize,
    most: usize,
    apart: bool,
) -> Result<bool, NoMemory>
    requires slot { slot < 2 }
    requires keeps { KeepsRules table.now }
    requires rules { IsPartition table.now.minor (length table.now.extents)
        (length table.now.groups)
        partition.now }
    requires long { 1 < length partition.now.name }
    requires apart { apart ≡ true
        → is_distinct (seen.old ++ blocks_of_partition table.now partition.now) ≡ true }
    ensures joins { IfOk result (λ ok. ok
        ≡ ((is_base (base_of partition.now.name)
        && (bytes_eq (group_at table.now.groups partition.now.group) default_name
        || is_of_slot slot (group_at table.now.groups partition.now.group))
        && nat_lt count most)
        && nat_le (length (blocks_of_partition table.now partition.now)) (2 ^ 28)
        && is_distinct (seen.old ++ blocks_of_partition table.now partition.now))) }
    ensures added { IfOk result (λ ok. ok ≡ true
        → seen.new ≡ seen.old ++ blocks_of_partition table.now partition.now) }
{
    let extents = table.extents_of(partition);
    if !passes_alone(table, partition, slot, count, most)
        || !is_small(extents, table.first_sector())
    {
        return Ok(false);
    }
    push_blocks(seen, table, partition)?;
    if apart {
        return Ok(true);
    }
    seen.is_distinct(alloc)
}

/// The first of a slot's own partitions, in the order of the table, that breaks a rule beside
/// those before it: a base name of 1 to 30 bytes of `A-Z a-z 0-9 _ .`, at most 2^40 bytes, the
/// group of no slot or one of the slot, `most` partitions, and no block twice. `NoMemory` where
/// memory is refused.
pub fn bad_partition(
    alloc: Global,
    table: &Table,
    slot: usize,
    most: usize,
) -> Result<Option<Name36>, NoMemory>
    requires slot { slot < 2 }
    requires keeps { KeepsRules table.now }
    requires most { most ≤ most_partitions }
    ensures exact { IfOk result
        (λ bad. bad
        ≡ bad_part most slot [] (own_parts slot (layout_of table.now).parts)) }
    ensures own { IfOk result (λ bad. IfNone bad (IsOwn slot (layout_of table.now).parts)) }
{
    let blocks = own_blocks(alloc, table, slot)?;
    let apart = blocks.is_distinct(alloc)?;
    let mut seen = Blocks::new(alloc);
    let mut count = 0;
    for partition in table.partitions.as_slice() {
        if is_of_slot(partition.name.text(), slot) {
            if !joins(alloc, table, &mut seen, partition, slot, count, most, apart)? {
                return Ok(Some(partition.name));
            }
            count += 1;
        }
    }
    Ok(None)
}
