//! A slot's own partitions as blocks on the disk.

ghost use Rattle.std.specs.Prelude.{◌≡◌, ◌<◌, ◌≤◌, ◌+◌, ◌^◌, length, IfOk, OnErr, Err, IsTrue};
ghost use Rattle.std.specs.Prelude.{true};
ghost use Rattle.vab_names.specs.Names.{is_base, base_of, is_of_slot};
ghost use Rattle.vab_tables.specs.Rules.{KeepsRules, IsPartition, IsGroup};
ghost use Rattle.vab_blocks.specs.Blocks.{first_sector_of};
ghost use Rattle.vab_layout.specs.Layout.{layout_of, part_of, group_at, blocks_of_partition};
ghost use Rattle.vab_layout.specs.Slots.{IsOwn};
ghost use Rattle.vab_device.specs.Kept.{limits_of, sectors_of, part_on, parts_of};

use std::alloc::Global;
use vab_bytes::{Listing, Name36};
use vab_device::{Part, PartImage, StartFault};
use vab_geometry::SUPER;
use vab_linear::Map;
use vab_model::GroupLimit;
use vab_names::{base_of, is_of_slot, parse_base};
use vab_tables::{Group, Partition, Table};

/// Where the blocks of a partition stand on the disk.
pub fn map(alloc: Global, table: &Table, partition: &Partition) -> Result<Map, StartFault>
    requires keeps { KeepsRules table.now }
    requires rules { IsPartition table.now.minor (length table.now.extents)
        (length table.now.groups) partition.now }
    requires small { length (blocks_of_partition table.now partition.now) < 2 ^ 60 }
    ensures blocks { IfOk result (λ m. m
        ≡ sectors_of (first_sector_of table.now)
        (blocks_of_partition table.now partition.now)) }
    ensures fault { OnErr result (result ≡ Err StartFault.NoMemory) }
{
    let mut runs = Vec::new(alloc);
    for extent in table.extents_of(partition) {
        runs.push((SUPER + extent.first_sector, extent.sectors))?;
    }
    Ok(Map::new(alloc, &runs)?)
}

/// The base name of a partition.
pub fn base(name: &Name36) -> Name36
    requires long { 2 ≤ length name.now }
    requires is { IsTrue (is_base (base_of name.now)) }
    ensures { result ≡ base_of name.now }
{
    match parse_base(base_of(name.text())) {
        Some(base) => base,
        None => unreachable!(),
    }
}

/// A partition with its blocks on the disk, without a store.
pub fn part(alloc: Global, table: &Table, partition: &Partition) -> Result<Part, StartFault>
    requires keeps { KeepsRules table.now }
    requires rules { IsPartition table.now.minor (length table.now.extents)
        (length table.now.groups) partition.now }
    requires small { length (blocks_of_partition table.now partition.now) ≤ 2 ^ 28 }
    requires long { 2 ≤ length partition.now.name }
    requires base { IsTrue (is_base (base_of partition.now.name)) }
    ensures part { IfOk result
        (λ p. p ≡ part_on (first_sector_of table.now) (part_of table.now partition.now)) }
    ensures fault { OnErr result (result ≡ Err StartFault.NoMemory) }
{
    Ok(Part {
        name: base(&partition.name),
        group: table.groups.as_slice()[partition.group as usize].name,
        map: map(alloc, table, partition)?,
        store: None,
        image: PartImage::Kept,
    })
}

/// A slot's own partitions, in the order of the table.
pub fn parts(alloc: Global, table: &Table, slot: usize) -> Result<Listing<Part>, StartFault>
    requires slot { slot < 2 }
    requires keeps { KeepsRules table.now }
    requires own { IsOwn slot (layout_of table.now).parts }
    ensures parts { IfOk result (λ ps. ps ≡ parts_of slot (layout_of table.now)) }
    ensures fault { OnErr result (result ≡ Err StartFault.NoMemory) }
{
    let mut parts = Vec::new(alloc);
    for partition in table.partitions.as_slice() {
        if is_of_slot(partition.name.text(), slot) {
            parts.push(part(alloc, table, partition)?)?;
        }
    }
    Ok(Listing::from_vec(parts))
}

// A group of a slot, without the slot's suffix.
fn limit(group: &Group, slot: usize) -> GroupLimit
    requires slot { slot < 2 }
    requires rules { IsGroup group.now }
    requires own { is_of_slot slot group.now.name ≡ true }
    ensures { result ≡ record { name = base_of group.now.name; limit = group.now.maximum_size } }
{
    match Name36::parse(base_of(group.name.text())) {
        Ok(name) => GroupLimit {
            name,
            limit: group.maximum_size,
        },
        Err(_) => unreachable!(),
    }
}

/// The groups of a slot with their limits, in the order of the table.
pub fn limits(alloc: Global, table: &Table, slot: usize) -> Result<Listing<GroupLimit>, StartFault>
    requires slot { slot < 2 }
    requires keeps { KeepsRules table.now }
    ensures limits { IfOk result (λ gs. gs ≡ limits_of slot table.now.groups) }
    ensures fault { OnErr result (result ≡ Err StartFault.NoMemory) }
{
    let mut limits = Vec::new(alloc);
    for group in table.groups.as_slice() {
        if is_of_slot(group.name.text(), slot) {
            limits.push(limit(group, slot))?;
        }
    }
    Ok(Listing::from_vec(limits))
}
