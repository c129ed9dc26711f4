//! A partition more.

ghost use Rattle.std.specs.Prelude.{◌≡◌, ◌≤◌, ◌<◌, ◌-◌, ◌++◌, ◌∷◌, [], length, IfOk};
ghost use Rattle.std.specs.Prelude.{if◌then◌else◌};
ghost use Rattle.std.specs.Str.{bytes_eq};
ghost use Rattle.vab_names.specs.Names.{default_name};
ghost use Rattle.vab_space.specs.Space.{blocks_of};
ghost use Rattle.vab_layout.specs.Layout.{layout_of};
ghost use Rattle.vab_layout.specs.Slots.{before_of, twins_by};
ghost use Rattle.vab_layout.specs.Plain.{default_group, own_groups};
ghost use Rattle.vab_builder.specs.Edits.{created, created_blocks, first_group, free_of};
ghost use Rattle.vab_builder.specs.Edits.{with_created, with_group};
ghost use Rattle.vab_builder.specs.Judged.{AreTables, Judges};
ghost use Rattle.vab_builder.specs.Update.{IsUpdateBeside};
ghost use Rattle.vab_builder.specs.Passes.{IsCreated};

use crate::counts::{count_own, has_part};
use crate::fault::EditFault;
use crate::find::push_before;
use crate::groups::{created_group, first_group, is_within};
use crate::names::{MAX_BYTES, full_name, judged_name};
use crate::parts::{push_free, with_group};
use crate::room::{capacity, created_in_use};
use std::alloc::Global;
use vab_blocks::Blocks;
use vab_bytes::{Listing, Name36};
use vab_layout::{Layout, Part};
use vab_names::{MAX_PARTITIONS, default_group};
use vab_space::{blocks, fits};
use vab_tables::{Group, NoMemory, Table};

/// The most partitions of a slot.
const MAX_PARTS: u64 = MAX_PARTITIONS as u64;

/// Read-only and updated.
const ATTRIBUTES: u32 = 5;

/// The first refusal of a partition more.
pub(crate) fn create_fault(
    source: &Table,
    target: &Table,
    slot: usize,
    name: &[u8],
    bytes: u64,
    apart: bool,
) -> Option<EditFault>
    requires { AreTables slot apart source.now target.now }
    ensures { Judges result
        (created slot (twins_by apart (layout_of source.now).parts)
        (layout_of source.now) (layout_of target.now) name.now bytes) }
{
    let Some(name) = full_name(name, slot) else {
        return Some(EditFault::BadName);
    };
    if bytes > MAX_BYTES {
        return Some(EditFault::BadSize);
    }
    if has_part(name.text(), target) {
        return Some(EditFault::Exists);
    }
    let own = count_own(target, slot);
    if own >= MAX_PARTS {
        return Some(EditFault::TooMany(own + 1));
    }
    let count = blocks(bytes);
    let (sum, limit) = created_group(target, slot, name.text(), count);
    if !is_within(sum, limit) {
        return Some(EditFault::GroupLimit(sum, limit));
    }
    let used = created_in_use(source, target, slot, &name, count, apart);
    let cap = capacity(target);
    if !fits(used, cap) {
        return Some(EditFault::NoRoom(used, cap));
    }
    None
}

/// The target with a partition more, for which the edit was judged. `NoMemory` where memory is
/// refused.
pub(crate) fn create(
    alloc: Global,
    twins: &[Part],
    source: &Layout,
    target: Layout,
    slot: usize,
    name: &[u8],
    bytes: u64,
) -> Result<Layout, NoMemory>
    requires update { IsUpdateBeside slot twins.now source.now target }
    requires passes { IsCreated slot twins.now source.now target name.now bytes }
    ensures { IfOk result (λ l. l
        ≡ with_created slot twins.now source.now target name.now (blocks_of bytes)) }
{
    let name = judged_name(name, slot);
    let fresh = created_blocks(alloc, twins, source, &target, slot, &name, blocks(bytes))?;
    with_part(target, slot, name, fresh)
}

// The blocks of a new partition: its twin's, as many as there are, and then the lowest free ones.
fn created_blocks(
    alloc: Global,
    twins: &[Part],
    source: &Layout,
    target: &Layout,
    slot: usize,
    name: &Name36,
    count: u64,
) -> Result<Blocks, NoMemory>
    requires slot { slot < 2 }
    requires long { 2 ≤ length name.now }
    requires room { count - length (before_of slot twins.now name.now)
        ≤ length (free_of slot source.now target.now) }
    ensures { IfOk result
        (λ b. b ≡ created_blocks slot twins.now source.now target.now name.now count) }
{
    let mut fresh = Blocks::new(alloc);
    push_before(&mut fresh, twins, slot, name, count)?;
    let shared = fresh.len();
    push_free(alloc, &mut fresh, source, target, slot, count - shared)?;
    Ok(fresh)
}

// The target with a partition of these blocks at the end, in the slot's first group.
fn with_part(target: Layout, slot: usize, name: Name36, blocks: Blocks) -> Result<Layout, NoMemory>
    requires { slot < 2 }
    ensures { IfOk result
        (λ l. l
        ≡ record target {
          parts =
              target.parts
              ++ record {
                name = name;
                attributes = 5;
                group =
                    first_group (own_groups slot target.groups);
                blocks = blocks;
              } ∷ [];
          groups =
              if bytes_eq (first_group (own_groups slot target.groups)) default_name then with_group
              default_group target.groups else target.groups;
        }) }
{
    let Layout {
        parts,
        groups,
        device,
        flags,
    } = target;
    let group = first_group(groups.as_slice(), slot);
    let mut parts = parts.into_vec();
    parts.push(Part {
        name,
        attributes: ATTRIBUTES,
        group,
        blocks,
    })?;
    Ok(Layout {
        parts: Listing::from_vec(parts),
        groups: Listing::from_vec(with_default(groups.into_vec(), &group)?),
        device,
        flags,
    })
}

// The groups with that of no slot, if it is this one.
fn with_default(groups: Vec<Group>, group: &Name36) -> Result<Vec<Group>, NoMemory>
    ensures { IfOk result
        (λ v. v.items
        ≡ (if bytes_eq group.now default_name then with_group default_group groups.items else
        groups.items)) }
{
    if *group == default_group() {
        with_group(groups, *group)
    } else {
        Ok(groups)
    }
}
