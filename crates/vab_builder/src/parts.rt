//! Names, partitions and groups of an edited target.

ghost use Rattle.std.specs.Prelude.{◌≡◌, ◌≤◌, ◌<◌, ◌++◌, ◌∷◌, [], take, length, IfOk, OnOk, not};
ghost use Rattle.std.specs.List.{filter};
ghost use Rattle.std.specs.Str.{bytes_eq};
ghost use Rattle.vab_tables.specs.Rules.{NamesDiffer};
ghost use Rattle.vab_layout.specs.Slots.{before_of, blocks_named};
ghost use Rattle.vab_builder.specs.Edits.{free_of, kept_blocks, changed, updated, with_group};

use crate::find::{has_group, place_of, push_before, push_named};
use crate::free::free_blocks;
use std::alloc::Global;
use vab_blocks::{Blocks, Runs};
use vab_bytes::Name36;
use vab_layout::{Layout, Part};
use vab_tables::{Group, NoMemory};

/// The attribute of a partition that an update has changed.
pub(crate) const UPDATED: u32 = 4;

/// Writes the lowest free blocks at the end, so many.
pub(crate) fn push_free(
    alloc: Global,
    blocks: &mut Blocks,
    source: &Layout,
    target: &Layout,
    slot: usize,
    count: u64,
) -> Result<(), NoMemory>
    requires slot { slot < 2 }
    requires room { count ≤ length (free_of slot source.now target.now) }
    ensures { OnOk result
        (blocks.new ≡ blocks.old
        ++ take count (free_of slot source.now target.now)) }
{
    let free = free_blocks(alloc, source, target, slot)?;
    push_lowest(alloc, blocks, &free, count)
}

/// Writes the lowest of these blocks at the end, so many.
pub(crate) fn push_lowest(
    alloc: Global,
    blocks: &mut Blocks,
    free: &Runs,
    count: u64,
) -> Result<(), NoMemory>
    requires { count ≤ length free.now }
    ensures { OnOk result (blocks.new ≡ blocks.old ++ take count free.now) }
{
    match free.take_lowest(alloc, count)? {
        Some(lowest) => blocks.append(lowest.as_blocks())?,
        None => unreachable!(),
    }
    Ok(())
}

/// What a partition of the target keeps at another size: blocks of its twin, and then fresh ones
/// that it has.
pub(crate) fn kept_blocks(
    alloc: Global,
    twins: &[Part],
    target: &[Part],
    slot: usize,
    name: &Name36,
    count: u64,
) -> Result<Blocks, NoMemory>
    requires slot { slot < 2 }
    requires long { 2 ≤ length name.now }
    ensures { IfOk result (λ b. b
        ≡ kept_blocks (before_of slot twins.now name.now)
        (blocks_named name.now target.now) count) }
{
    let mut kept = Blocks::new(alloc);
    push_before(&mut kept, twins, slot, name, count)?;
    let shared = kept.len();
    push_named(&mut kept, name.text(), target, shared, count - shared)?;
    Ok(kept)
}

/// The groups with one of this name, flags 0 and no limit, as the last where there is none.
pub(crate) fn with_group(mut groups: Vec<Group>, name: Name36) -> Result<Vec<Group>, NoMemory>
    ensures { IfOk result
        (λ v. v.items
        ≡ with_group record { name = name; flags = 0; maximum_size = 0 } groups.items) }
{
    if !has_group(&groups, &name) {
        groups.push(Group {
            name,
            flags: 0,
            maximum_size: 0,
        })?;
    }
    Ok(groups)
}

/// Marks the partition of this name as updated.
pub(crate) fn mark_updated(parts: &mut Vec<Part>, name: &[u8])
    requires { NamesDiffer (λ p. p.name) parts.old.items }
    ensures { parts.new.items ≡ changed name.now updated parts.old.items }
{
    match place_of(name, parts) {
        Some(at) => {
            let part = &mut parts[at];
            part.attributes |= UPDATED;
        }
        None => {}
    }
}

/// Gives the partition of this name these blocks, and marks it as updated.
pub(crate) fn set_blocks(parts: &mut Vec<Part>, name: &[u8], blocks: Blocks)
    requires { NamesDiffer (λ p. p.name) parts.old.items }
    ensures { parts.new.items
        ≡ changed name.now (λ p. record (updated p) { blocks = blocks }) parts.old.items }
{
    match place_of(name, parts) {
        Some(at) => {
            let part = &mut parts[at];
            part.attributes |= UPDATED;
            part.blocks = blocks;
        }
        None => {}
    }
}

/// Takes out the partition of this name.
pub(crate) fn remove_part(parts: &mut Vec<Part>, name: &[u8])
    requires { NamesDiffer (λ p. p.name) parts.old.items }
    ensures { parts.new.items ≡ filter (λ p. not (bytes_eq p.name name.now)) parts.old.items }
{
    match place_of(name, parts) {
        Some(at) => {
            let _ = parts.remove(at);
        }
        None => {}
    }
}
