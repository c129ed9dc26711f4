//! A slot's table with an exception store over one of its partitions.

ghost use Rattle.std.specs.Prelude.{◌≡◌, ◌≤◌, ◌<◌, ◌^◌, ◌+◌, length, take, true, IfOk};
ghost use Rattle.vab_tables.specs.Rules.{cap_of, KeepsRules};
ghost use Rattle.vab_tables.specs.Spelling.{table_size_of};
ghost use Rattle.vab_layout.specs.Layout.{layout_of, blocks_of_parts};
ghost use Rattle.vab_layout.specs.Rules.{IsLayout};
ghost use Rattle.vab_layout.specs.Slots.{own_parts, IsOwn, groups_of_slot};
ghost use Rattle.vab_layout.specs.Plain.{plain};
ghost use Rattle.vab_builder.specs.Edits.{fitting};
ghost use Rattle.vab_builder.specs.Gives.{GivesTable};
ghost use Rattle.vab_builder.specs.Sizes.{has_part};
ghost use Rattle.vab_builder.specs.Overlay.{free_beside, overlay_part, with_overlay, IsOverlaid};

use crate::EditFault;
use crate::counts::has_part;
use crate::fitting::fitting;
use crate::free::free_beside;
use crate::imported::{plain, unlimited};
use crate::parts::push_lowest;
use crate::room::capacity;
use crate::sizes::slot_blocks;
use std::alloc::Global;
use vab_blocks::Blocks;
use vab_bytes::{Listing, Name36};
use vab_layout::{Layout, Part};
use vab_names::{is_of_slot, store_group, store_of};
use vab_tables::{NoMemory, Table};

/// Whether the slot has a partition of this name.
pub fn has_own(table: &Table, slot: usize, name: &[u8]) -> bool
    requires { slot < 2 }
    ensures { result ≡ has_part name.now (own_parts slot (layout_of table.now).parts) }
{
    is_of_slot(name, slot) && has_part(name, table)
}

/// How many blocks of the table's device are in none of the slot's partitions.
pub fn blocks_beside(table: &Table, slot: usize) -> u64
    requires slot { slot < 2 }
    requires keeps { KeepsRules table.now }
    requires own { IsOwn slot (layout_of table.now).parts }
    ensures { length (blocks_of_parts (own_parts slot (layout_of table.now).parts)) + result
        ≡ cap_of (layout_of table.now).device }
{
    capacity(table) - slot_blocks(table, slot)
}

// The store over the partition of this name: so many blocks, the lowest that are in none of the
// slot's partitions.
fn overlay_part(
    alloc: Global,
    layout: &Layout,
    slot: usize,
    name: &Name36,
    count: u64,
) -> Result<Part, NoMemory>
    requires slot { slot < 2 }
    requires short { length name.now ≤ 32 }
    requires room { count ≤ length (free_beside slot layout.now) }
    ensures { IfOk result (λ p. p ≡ overlay_part slot layout.now name.now count) }
{
    let free = free_beside(alloc, layout, slot)?;
    let mut blocks = Blocks::new(alloc);
    push_lowest(alloc, &mut blocks, &free, count)?;
    Ok(Part {
        name: store_of(name),
        attributes: 0,
        group: store_group(),
        blocks,
    })
}

// The layout of a slot alone with a store of so many blocks over one of its partitions.
fn overlaid(
    alloc: Global,
    layout: &Layout,
    slot: usize,
    name: &Name36,
    count: u64,
) -> Result<Layout, NoMemory>
    requires slot { slot < 2 }
    requires rules { IsLayout layout.now }
    requires own { IsOwn slot layout.now.parts }
    requires named { has_part name.now (own_parts slot layout.now.parts) ≡ true }
    requires room { length (blocks_of_parts (own_parts slot layout.now.parts)) + count
        ≤ cap_of layout.now.device }
    ensures value { IfOk result (λ l. l ≡ with_overlay slot layout.now name.now count) }
    ensures rules { IfOk result (λ l. IsLayout l) }
{
    let store = overlay_part(alloc, layout, slot, name, count)?;
    let Layout {
        parts,
        groups,
        device,
        flags,
    } = plain(alloc, layout, slot)?;
    let mut parts = parts.into_vec();
    parts.push(store)?;
    let mut groups = groups.into_vec();
    groups.push(unlimited(store_group()))?;
    Ok(Layout {
        parts: Listing::from_vec(parts),
        groups: Listing::from_vec(groups),
        device,
        flags,
    })
}

/// The table of a slot alone with an exception store of so many blocks over one of its partitions.
/// The store has the lowest blocks that are in none of the slot's partitions. `TableFull` exactly
/// where the table's text is longer than `max` bytes; `NoMemory` where memory is refused.
pub fn with_overlay(
    alloc: Global,
    table: &Table,
    slot: usize,
    name: &Name36,
    blocks: u64,
    max: u32,
) -> Result<Table, EditFault>
    requires slot { slot < 2 }
    requires keeps { KeepsRules table.now }
    requires small { table_size_of table.now < 2 ^ 24 }
    requires own { IsOwn slot (layout_of table.now).parts }
    requires named { has_part name.now (own_parts slot (layout_of table.now).parts) ≡ true }
    requires room { length (blocks_of_parts (own_parts slot (layout_of table.now).parts)) + blocks
        ≤ cap_of (layout_of table.now).device }
    ensures exact { GivesTable result
        (fitting max (with_overlay slot (layout_of table.now) name.now blocks)) }
    ensures rules { IfOk result KeepsRules }
    ensures size { IfOk result (λ t. table_size_of t ≤ max) }
    ensures layout { IfOk result
        (λ t. layout_of t ≡ with_overlay slot (layout_of table.now) name.now blocks) }
    ensures own { IfOk result (λ t. IsOwn slot (layout_of t).parts) }
    ensures groups { IfOk result
        (λ t. groups_of_slot slot t.groups
        ≡ groups_of_slot slot table.now.groups) }
    ensures device { IfOk result (λ t. t.devices ≡ table.now.devices) }
    // Without the store it is what the slot's table is without stores.
    ensures plain { IfOk result
        (λ t. plain slot (layout_of t)
        ≡ plain slot (layout_of table.now)) }
    // There is one store, over this partition, of so many blocks, none of which is one of the
    // slot's partitions.
    ensures overlaid { IfOk result
        (λ t. IsOverlaid slot (layout_of table.now) (layout_of t) name.now blocks) }
{
    let layout = Layout::of_table(alloc, table)?;
    let target = overlaid(alloc, &layout, slot, name, blocks)?;
    fitting(alloc, &target, max)
}
