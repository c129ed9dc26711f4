//! A partition or a store of an update's target, beside the source.

ghost use Rattle.std.specs.Prelude.{◌≡◌, ◌≢◌, ◌↔◌, ◌&&◌, ◌<◌, ◌≤◌, ◌^◌, [], length, take, drop};
ghost use Rattle.std.specs.Prelude.{nat_le};
ghost use Rattle.std.specs.Prelude.{All, Any, Contains, IfOk, IsTrue, true, false};
ghost use Rattle.std.specs.List.{list_any};
ghost use Rattle.std.specs.Str.{bytes_eq};
ghost use Rattle.vab_names.specs.Names.{in_slot, is_of_slot, is_store, store_of, store_group_name};
ghost use Rattle.vab_layout.specs.Layout.{blocks_of_parts};
ghost use Rattle.vab_layout.specs.Slots.{blocks_named, is_updated, other_slot, own_parts};
ghost use Rattle.vab_layout.specs.Slots.{IsDistinct, IsOwn, IsOwnPart, IsStorePart};
ghost use Rattle.vab_layout.specs.Slots.{IsTargetPartBeside};
ghost use Rattle.vab_partitions.specs.Target.{KeepsAlone};
ghost use Rattle.vab_partitions.specs.Merging.{IsStoreAlone};

use crate::own::{has_base, is_group_of};
use std::alloc::Global;
use vab_blocks::Blocks;
use vab_bytes::Name36;
use vab_layout::Part;
use vab_names::{in_slot, is_of_slot, store_group, store_of};
use vab_tables::NoMemory;

/// The attribute of a partition that an update has changed.
const UPDATED: u32 = 4;

/// The most blocks of a partition: 2^40 bytes.
const MAX_BLOCKS: u64 = 1 << 28;

/// What a store's name has behind its partition's.
const STORE_SUFFIX: &[u8] = b"-cow";

// Whether there are at most 2^28 blocks.
fn has_few(blocks: &Blocks) -> bool
    ensures { result ≡ nat_le (length blocks.now) (2 ^ 28) }
{
    let mut count = 0;
    for run in blocks.runs() {
        if run.1 > MAX_BLOCKS - count {
            return false;
        }
        count += run.1;
    }
    true
}

// Whether one of these partitions has the name.
fn is_named(name: &[u8], parts: &[Part]) -> bool
    ensures { result ≡ list_any (λ p. bytes_eq p.name name.now) parts.now }
{
    parts.iter().any(|part| part.name.text() == name)
}

// Whether a partition of this name is among these.
fn has_part(name: &[u8], parts: &[Part]) -> bool
    ensures { IsTrue result ↔ Any (λ p. p.name ≡ name.now) parts.now }
{
    is_named(name, parts)
}

// The blocks of the first partition of this name, if there is one.
fn blocks_named(alloc: Global, name: &[u8], parts: &[Part]) -> Result<Blocks, NoMemory>
    ensures { IfOk result (λ b. b ≡ blocks_named name.now parts.now) }
{
    for part in parts {
        if part.name.text() == name {
            return part.blocks.copy(alloc);
        }
    }
    Ok(Blocks::new(alloc))
}

// Whether these are the same blocks in the same order.
fn is_same(a: &Blocks, b: &Blocks) -> bool
    ensures { IsTrue result ↔ (a.now ≡ b.now) }
{
    a.runs() == b.runs()
}

// Whether the blocks begin with all of these, or are the front of them.
fn begins(alloc: Global, blocks: &Blocks, before: &Blocks) -> Result<bool, NoMemory>
    requires blocks { length blocks.now ≤ 2 ^ 28 }
    requires before { length before.now ≤ 2 ^ 28 }
    ensures { IfOk result (λ ok. IsTrue ok
        ↔ (take (length before.now) blocks.now ≡ take (length blocks.now) before.now)) }
{
    let front = blocks.take(alloc, before.len())?;
    let other = before.take(alloc, blocks.len())?;
    Ok(is_same(&front, &other))
}

// Whether no block of the one is in the other.
fn is_apart(alloc: Global, taken: &Blocks, blocks: &Blocks) -> Result<bool, NoMemory>
    requires taken { IsDistinct taken.now }
    requires blocks { IsDistinct blocks.now }
    ensures { IfOk result (λ ok. IsTrue ok ↔ All (λ b. Contains taken.now b → ⊥) blocks.now) }
{
    if blocks.is_empty() {
        return Ok(true);
    }
    let mut both = taken.copy(alloc)?;
    both.append(blocks)?;
    both.is_distinct(alloc)
}

// Whether no block behind the first so many is taken.
fn is_fresh(alloc: Global, taken: &Blocks, blocks: &Blocks, skip: u64) -> Result<bool, NoMemory>
    requires taken { IsDistinct taken.now }
    requires blocks { IsDistinct blocks.now }
    requires small { length blocks.now ≤ 2 ^ 28 }
    ensures { IfOk result
        (λ ok. IsTrue ok ↔ All (λ b. Contains taken.now b → ⊥) (drop skip blocks.now)) }
{
    let mut fresh = Blocks::new(alloc);
    fresh.append_part(blocks, skip, blocks.len())?;
    is_apart(alloc, taken, &fresh)
}

/// Whether the partition keeps the rules of a slot's own.
pub(crate) fn is_own_part(part: &Part, slot: usize) -> bool
    requires slot { slot < 2 }
    requires of_slot { is_of_slot slot part.now.name ≡ true }
    ensures { IsTrue result ↔ IsOwnPart slot part.now }
{
    has_base(&part.name) && has_few(&part.blocks) && is_group_of(&part.group, slot)
}

// Whether the partition has its twin's blocks and no store.
fn is_unchanged(twins: &[Part], target: &[Part], part: &Part, before: &Blocks, slot: usize) -> bool
    requires slot { slot < 2 }
    requires long { 2 ≤ length part.now.name }
    requires short { length part.now.name ≤ 32 }
    ensures { IsTrue result
        ↔ (Any (λ s. s.name ≡ in_slot (other_slot slot) part.now.name) twins.now
        × (part.now.blocks ≡ before.now)
        × All (λ s. s.name ≢ store_of part.now.name) target.now) }
{
    has_part(in_slot(&part.name, 1 - slot).text(), twins)
        && is_same(&part.blocks, before)
        && !has_part(store_of(&part.name).text(), target)
}

// Whether the partition keeps the rules of a target's.
fn is_target_part(
    alloc: Global,
    twins: &[Part],
    source: &[Part],
    target: &[Part],
    taken: &Blocks,
    part: &Part,
    slot: usize,
) -> Result<bool, NoMemory>
    requires slot { slot < 2 }
    requires twins { IsOwn (other_slot slot) twins.now }
    requires source { IsOwn (other_slot slot) source.now }
    requires taken { taken.now ≡ blocks_of_parts (own_parts (other_slot slot) source.now) }
    requires once { IsDistinct part.now.blocks }
    requires of_slot { is_of_slot slot part.now.name ≡ true }
    requires own { IsOwnPart slot part.now }
    ensures { IfOk result
        (λ ok. IsTrue ok ↔ IsTargetPartBeside slot twins.now source.now target.now part.now) }
{
    let before = blocks_named(alloc, in_slot(&part.name, 1 - slot).text(), twins)?;
    if !begins(alloc, &part.blocks, &before)? {
        return Ok(false);
    }
    if !is_fresh(alloc, taken, &part.blocks, before.len())? {
        return Ok(false);
    }
    Ok(part.attributes & UPDATED != 0 || is_unchanged(twins, target, part, &before, slot))
}

// Whether this is a partition of the slot with this name that is marked as updated.
fn is_its(part: &Part, name: &[u8], slot: usize) -> bool
    requires { slot < 2 }
    ensures { result
        ≡ (is_of_slot slot part.now.name
        && (bytes_eq part.now.name name.now && is_updated part.now)) }
{
    is_of_slot(part.name.text(), slot)
        && (part.name.text() == name && part.attributes & UPDATED != 0)
}

// Whether there is such a partition.
fn has_its(target: &[Part], name: &[u8], slot: usize) -> bool
    requires { slot < 2 }
    ensures { result
        ≡ list_any (λ p. is_of_slot slot p.name && (bytes_eq p.name name.now && is_updated p))
        target.now }
{
    target.iter().any(|part| is_its(part, name, slot))
}

// Whether this is the store of a partition of the slot that is marked as updated.
fn has_updated(target: &[Part], name: &Name36, slot: usize) -> bool
    requires slot { slot < 2 }
    requires store { is_store slot name.now ≡ true }
    ensures { IsTrue result
        ↔ Any (λ p. (name.now ≡ store_of p.name) × IsTrue (is_updated p))
        (own_parts slot target.now) }
{
    let text = name.text();
    has_its(target, &text[..text.len() - STORE_SUFFIX.len()], slot)
}

// Whether the partition stands in the stores' group.
fn is_in_store_group(part: &Part) -> bool
    ensures { IsTrue result ↔ (part.now.group ≡ store_group_name) }
{
    part.group == store_group()
}

/// Whether the store stands in the stores' group, and is one of a partition of the slot that is
/// marked as updated.
pub(crate) fn is_store_alone(target: &[Part], part: &Part, slot: usize) -> bool
    requires slot { slot < 2 }
    requires store { is_store slot part.now.name ≡ true }
    ensures { IsTrue result ↔ IsStoreAlone slot target.now part.now }
{
    is_in_store_group(part) && has_updated(target, &part.name, slot)
}

// Whether the store keeps the rules of a store.
fn is_store_part(
    alloc: Global,
    source: &[Part],
    target: &[Part],
    taken: &Blocks,
    part: &Part,
    slot: usize,
) -> Result<bool, NoMemory>
    requires slot { slot < 2 }
    requires source { IsOwn (other_slot slot) source.now }
    requires taken { taken.now ≡ blocks_of_parts (own_parts (other_slot slot) source.now) }
    requires once { IsDistinct part.now.blocks }
    requires store { is_store slot part.now.name ≡ true }
    ensures { IfOk result (λ ok. IsTrue ok ↔ IsStorePart slot source.now target.now part.now) }
{
    if !is_store_alone(target, part, slot) {
        return Ok(false);
    }
    is_apart(alloc, taken, &part.blocks)
}

/// Whether a partition of the slot or a store keeps the rules that don't speak of those before it.
pub(crate) fn keeps_alone(
    alloc: Global,
    twins: &[Part],
    source: &[Part],
    target: &[Part],
    taken: &Blocks,
    part: &Part,
    slot: usize,
) -> Result<bool, NoMemory>
    requires slot { slot < 2 }
    requires twins { IsOwn (other_slot slot) twins.now }
    requires source { IsOwn (other_slot slot) source.now }
    requires taken { taken.now ≡ blocks_of_parts (own_parts (other_slot slot) source.now) }
    requires once { IsDistinct part.now.blocks }
    requires either { is_of_slot slot part.now.name ≡ false → is_store slot part.now.name ≡ true }
    ensures { IfOk result
        (λ ok. IsTrue ok ↔ KeepsAlone slot twins.now source.now target.now part.now) }
{
    if !is_of_slot(part.name.text(), slot) {
        return is_store_part(alloc, source, target, taken, part, slot);
    }
    if !is_own_part(part, slot) {
        return Ok(false);
    }
    is_target_part(alloc, twins, source, target, taken, part, slot)
}
