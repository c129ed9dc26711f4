//! The partition of a slot that has an exception store while there is no update.

ghost use Rattle.std.specs.Prelude.{◌≡◌, ◌&&◌, ◌+◌, ◌<◌, ◌≤◌, ℕ, List, [], ◌∷◌, length, Some, None};
ghost use Rattle.std.specs.Prelude.{Contains, IfNone, IfSome, IfOk, MatchOption};
ghost use Rattle.std.specs.Str.{bytes_eq};
ghost use Rattle.vab_names.specs.Names.{is_of_slot, store_of};
ghost use Rattle.vab_tables.specs.Rules.{KeepsRules};
ghost use Rattle.vab_layout.specs.Layout.{part_of, layout_of};
ghost use Rattle.vab_layout.specs.Overlay.{part_of_store, overlaid_by, overlaid_in, is_apart};
ghost use Rattle.vab_partitions.specs.Overlay.{own_of, overlays_from, pair_of};

use crate::own::{own_blocks, push_blocks};
use std::alloc::Global;
use vab_bytes::Name36;
use vab_names::{is_of_slot, store_group};
use vab_tables::{NoMemory, Partition, Table};

/// What a store's name has behind its partition's.
const STORE_SUFFIX: &[u8] = b"-cow";

/// A partition of a slot, and the store over it.
#[derive(Clone, Copy)]
pub struct Overlay<'a> {
    pub partition: &'a Partition,
    pub store: &'a Partition,
}

// The name of the partition whose store has this one.
fn front_of(name: &Name36) -> Option<&[u8]>
    ensures none { IfNone result ((front : List ℕ) → name.now ≡ store_of front → ⊥) }
    ensures some { IfSome result (λ front. name.now ≡ store_of front.now) }
{
    name.text().strip_suffix(STORE_SUFFIX)
}

// Whether this is the partition of the slot with this name.
fn is_named(partition: &Partition, name: &[u8], slot: usize) -> bool
    requires { slot < 2 }
    ensures { result
        ≡ (is_of_slot slot partition.now.name
        && bytes_eq partition.now.name name.now) }
{
    is_of_slot(partition.name.text(), slot) && partition.name.text() == name
}

// The slot's own partition whose store has this name.
fn part_of_store<'a>(table: &'a Table, store: &Partition, slot: usize) -> Option<&'a Partition>
    requires { slot < 2 }
    ensures is { MatchOption result
        (part_of_store (own_of slot table.now) (part_of table.now store.now) ≡ None)
        (λ p. part_of_store (own_of slot table.now) (part_of table.now store.now)
        ≡ Some (part_of table.now p.now)) }
    ensures listed { IfSome result (λ p. Contains table.now.partitions p.now) }
{
    let name = front_of(&store.name)?;
    for partition in table.partitions.as_slice() {
        if is_named(partition, name, slot) {
            return Some(partition);
        }
    }
    None
}

// The same, where the store stands in the stores' group.
fn overlaid_by<'a>(table: &'a Table, store: &Partition, slot: usize) -> Option<&'a Partition>
    requires slot { slot < 2 }
    requires group { store.now.group < length table.now.groups }
    ensures is { MatchOption result
        (overlaid_by (own_of slot table.now) (part_of table.now store.now) ≡ None)
        (λ p. overlaid_by (own_of slot table.now) (part_of table.now store.now)
        ≡ Some (part_of table.now p.now)) }
    ensures listed { IfSome result (λ p. Contains table.now.partitions p.now) }
{
    if table.groups.as_slice()[store.group as usize].name != store_group() {
        return None;
    }
    part_of_store(table, store, slot)
}

// The next store over one of the slot's partitions, and the place behind the store.
fn next_overlay<'a>(table: &'a Table, slot: usize, from: usize) -> Option<(Overlay<'a>, usize)>
    requires slot { slot < 2 }
    requires keeps { KeepsRules table.now }
    requires from { from ≤ length table.now.partitions }
    ensures none { IfNone result (overlays_from slot table.now from ≡ []) }
    ensures next { IfSome result (λ r. overlays_from slot table.now from
        ≡ pair_of table.now r.0.partition.now r.0.store.now ∷ overlays_from slot table.now r.1) }
    ensures within { IfSome result (λ r. r.1 ≤ length table.now.partitions) }
    ensures partition { IfSome result (λ r. Contains table.now.partitions r.0.partition.now) }
    ensures store { IfSome result (λ r. Contains table.now.partitions r.0.store.now) }
{
    let partitions = table.partitions.as_slice();
    for at in from..partitions.len() {
        let store = &partitions[at];
        if let Some(partition) = overlaid_by(table, store, slot) {
            return Some((Overlay { partition, store }, at + 1));
        }
    }
    None
}

/// The slot's own partition that has an exception store by its name in the group `cow`, and the
/// store, where there is exactly one such store; `None` where there is none, or more than one.
pub fn overlaid(table: &Table, slot: usize) -> Option<Overlay<'_>>
    requires slot { slot < 2 }
    requires keeps { KeepsRules table.now }
    ensures exact { MatchOption result
        (overlaid_in slot (layout_of table.now).parts ≡ None)
        (λ o. overlaid_in slot (layout_of table.now).parts
        ≡ Some (pair_of table.now o.partition.now o.store.now)) }
    ensures partition { IfSome result (λ o. Contains table.now.partitions o.partition.now) }
    ensures store { IfSome result (λ o. Contains table.now.partitions o.store.now) }
{
    let (overlay, behind) = next_overlay(table, slot, 0)?;
    match next_overlay(table, slot, behind) {
        Some(_) => None,
        None => Some(overlay),
    }
}

/// Whether no block stands twice in the slot's own partitions and the store. `NoMemory` where
/// memory is refused.
pub fn is_apart(
    alloc: Global,
    table: &Table,
    slot: usize,
    store: &Partition,
) -> Result<bool, NoMemory>
    requires slot { slot < 2 }
    requires keeps { KeepsRules table.now }
    requires listed { Contains table.now.partitions store.now }
    ensures { IfOk result
        (λ apart. apart
        ≡ is_apart slot (layout_of table.now).parts (part_of table.now store.now)) }
{
    let mut blocks = own_blocks(alloc, table, slot)?;
    push_blocks(&mut blocks, table, store)?;
    blocks.is_distinct(alloc)
}
