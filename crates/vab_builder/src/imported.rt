//! The layouts that begin an update and end it.

ghost use Rattle.std.specs.Prelude.{◌≡◌, ◌≤◌, ◌<◌, [], ◌∷◌, ◌++◌, length, map, All, IfOk};
ghost use Rattle.vab_layout.specs.Rules.{IsLayout};
ghost use Rattle.vab_layout.specs.Slots.{other_slot, own_parts, twins_by, IsOwn, IsTargetBeside};
ghost use Rattle.vab_layout.specs.Slots.{groups_of_slot};
ghost use Rattle.vab_layout.specs.Plain.{plain, default_group, own_groups};
ghost use Rattle.vab_builder.specs.Import.{imported_by, parts_by, stores_group, twin_group_name};
ghost use Rattle.vab_builder.specs.Import.{twin_group};
ghost use Rattle.vab_builder.specs.Import.{twin_part};

use std::alloc::Global;
use vab_bytes::{Listing, Name36};
use vab_layout::{Layout, Part};
use vab_names::{default_group, in_slot, is_of_slot, store_group};
use vab_tables::{Group, NoMemory};

/// The flag of a device with Virtual A/B.
const VIRTUAL_AB: u32 = 1;

/// Read-only and disabled, the attributes that a partition's twin has too.
const KEPT: u32 = 9;

/// The layout of the target as an update from this source begins, with or without the target's
/// partitions. `NoMemory` where memory is refused.
pub(crate) fn imported(
    alloc: Global,
    layout: &Layout,
    source: usize,
    apart: bool,
) -> Result<Layout, NoMemory>
    requires slot { source < 2 }
    requires rules { IsLayout layout.now }
    requires own { IsOwn source layout.now.parts }
    ensures value { IfOk result (λ l. l ≡ imported_by apart source layout.now) }
    ensures rules { IfOk result IsLayout }
    ensures target { IfOk result
        (λ l. IsTargetBeside (other_slot source) (twins_by apart layout.now.parts) layout.now.parts
        l.parts) }
    ensures groups { IfOk result
        (λ l. groups_of_slot (other_slot source) l.groups
        ≡ groups_of_slot source layout.now.groups) }
{
    let parts = imported_parts(alloc, layout.parts.as_slice(), source, apart)?;
    let groups = imported_groups(alloc, layout.groups.as_slice(), source)?;
    Ok(Layout {
        parts: Listing::from_vec(parts),
        groups: Listing::from_vec(groups),
        device: layout.device,
        flags: layout.flags | VIRTUAL_AB,
    })
}

/// The layout of a slot alone, without stores. `NoMemory` where memory is refused.
pub(crate) fn plain(alloc: Global, layout: &Layout, slot: usize) -> Result<Layout, NoMemory>
    requires slot { slot < 2 }
    requires rules { IsLayout layout.now }
    requires own { IsOwn slot layout.now.parts }
    ensures value { IfOk result (λ l. l ≡ plain slot layout.now) }
    ensures rules { IfOk result (λ l. IsLayout l) }
    ensures own { IfOk result (λ l. IsOwn slot l.parts) }
{
    let parts = own_parts(alloc, layout.parts.as_slice(), slot)?;
    let groups = plain_groups(alloc, layout.groups.as_slice(), slot)?;
    Ok(Layout {
        parts: Listing::from_vec(parts),
        groups: Listing::from_vec(groups),
        device: layout.device,
        flags: layout.flags,
    })
}

// ---- partitions

// The partition with the same blocks in memory of its own.
fn copy_part(alloc: Global, part: &Part) -> Result<Part, NoMemory>
    ensures { IfOk result (λ p. p ≡ part.now) }
{
    Ok(Part {
        name: part.name,
        attributes: part.attributes,
        group: part.group,
        blocks: part.blocks.copy(alloc)?,
    })
}

// Copies of a slot's own partitions, in their order.
fn own_parts(alloc: Global, parts: &[Part], slot: usize) -> Result<Vec<Part>, NoMemory>
    requires { slot < 2 }
    ensures { IfOk result (λ v. v.items ≡ own_parts slot parts.now) }
{
    let mut own = Vec::new(alloc);
    for part in parts {
        if is_of_slot(part.name.text(), slot) {
            own.push(copy_part(alloc, part)?)?;
        }
    }
    Ok(own)
}

// The partition of the same base name in the slot, with the same blocks.
fn twin_part(alloc: Global, part: &Part, slot: usize) -> Result<Part, NoMemory>
    requires slot { slot < 2 }
    requires name { 2 ≤ length (part.now).name }
    requires group { 2 ≤ length (part.now).group }
    ensures { IfOk result (λ p. p ≡ twin_part slot part.now) }
{
    Ok(Part {
        name: in_slot(&part.name, slot),
        attributes: part.attributes & KEPT,
        group: twin_group_name(&part.group, slot),
        blocks: part.blocks.copy(alloc)?,
    })
}

// The twins of these partitions in the slot, in their order.
fn twin_parts(alloc: Global, parts: &[Part], slot: usize) -> Result<Vec<Part>, NoMemory>
    requires slot { slot < 2 }
    requires long { All (λ p. (2 ≤ length p.name) × (2 ≤ length p.group)) parts.now }
    ensures { IfOk result (λ v. v.items ≡ map (twin_part slot) parts.now) }
{
    let mut twins = Vec::new(alloc);
    for part in parts {
        twins.push(twin_part(alloc, part, slot)?)?;
    }
    Ok(twins)
}

// The source's own partitions and then their twins in the other slot.
fn both_parts(alloc: Global, parts: &[Part], source: usize) -> Result<Vec<Part>, NoMemory>
    requires slot { source < 2 }
    requires long { All (λ p. 2 ≤ length p.group) (own_parts source parts.now) }
    ensures { IfOk result
        (λ v. v.items ≡ own_parts source parts.now
        ++ map (twin_part (other_slot source)) (own_parts source parts.now)) }
{
    let mut all = own_parts(alloc, parts, source)?;
    let twins = twin_parts(alloc, all.as_slice(), other_slot(source))?;
    all.extend(twins)?;
    Ok(all)
}

// The partitions of the target's table as an update begins: the source's own, and then their twins
// where it doesn't stand apart.
fn imported_parts(
    alloc: Global,
    parts: &[Part],
    source: usize,
    apart: bool,
) -> Result<Vec<Part>, NoMemory>
    requires slot { source < 2 }
    requires long { All (λ p. 2 ≤ length p.group) (own_parts source parts.now) }
    ensures { IfOk result (λ v. v.items ≡ parts_by apart source parts.now) }
{
    if apart {
        own_parts(alloc, parts, source)
    } else {
        both_parts(alloc, parts, source)
    }
}

// ---- groups

/// A group without a limit.
pub(crate) fn unlimited(name: Name36) -> Group
    ensures { result ≡ record { name = name; flags = 0; maximum_size = 0 } }
{
    Group {
        name,
        flags: 0,
        maximum_size: 0,
    }
}

// The groups of a slot, in their order.
fn own_groups(alloc: Global, groups: &[Group], slot: usize) -> Result<Vec<Group>, NoMemory>
    requires { slot < 2 }
    ensures { IfOk result (λ v. v.items ≡ own_groups slot groups.now) }
{
    let mut own = Vec::new(alloc);
    for group in groups {
        if is_of_slot(group.name.text(), slot) {
            own.push(*group)?;
        }
    }
    Ok(own)
}

// The name of the group's twin; the group of no slot is its own.
fn twin_group_name(name: &Name36, slot: usize) -> Name36
    requires slot { slot < 2 }
    requires long { 2 ≤ length name.now }
    ensures { result ≡ twin_group_name slot name.now }
{
    if *name == default_group() {
        *name
    } else {
        in_slot(name, slot)
    }
}

// The twins of these groups in the slot, in their order.
fn twin_groups(alloc: Global, groups: &[Group], slot: usize) -> Result<Vec<Group>, NoMemory>
    requires slot { slot < 2 }
    requires long { All (λ g. 2 ≤ length g.name) groups.now }
    ensures { IfOk result (λ v. v.items ≡ map (twin_group slot) groups.now) }
{
    let mut twins = Vec::new(alloc);
    for group in groups {
        twins.push(Group {
            name: in_slot(&group.name, slot),
            ..*group
        })?;
    }
    Ok(twins)
}

// The groups of no slot, and between them the source's and their twins in the other slot.
fn imported_groups(alloc: Global, groups: &[Group], source: usize) -> Result<Vec<Group>, NoMemory>
    requires { source < 2 }
    ensures { IfOk result
        (λ v. v.items
        ≡ default_group ∷ (own_groups source groups.now
        ++ (map (twin_group (other_slot source)) (own_groups source groups.now)
        ++ stores_group ∷ []))) }
{
    let own = own_groups(alloc, groups, source)?;
    let twins = twin_groups(alloc, own.as_slice(), other_slot(source))?;
    let mut all = Vec::new(alloc);
    all.push(unlimited(default_group()))?;
    all.extend_from_slice(&own)?;
    all.extend_from_slice(&twins)?;
    all.push(unlimited(store_group()))?;
    Ok(all)
}

// The first group of no slot, and then the slot's.
fn plain_groups(alloc: Global, groups: &[Group], slot: usize) -> Result<Vec<Group>, NoMemory>
    requires { slot < 2 }
    ensures { IfOk result (λ v. v.items ≡ default_group ∷ own_groups slot groups.now) }
{
    let mut all = own_groups(alloc, groups, slot)?;
    all.insert(0, unlimited(default_group()))?;
    Ok(all)
}

// ---- slots

// The other slot.
fn other_slot(slot: usize) -> usize
    requires { slot < 2 }
    ensures value { result ≡ other_slot slot }
    ensures slot { result < 2 }
{
    1 - slot
}
