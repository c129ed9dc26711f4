//! Another size of a partition.

ghost use Rattle.std.specs.Prelude.{◌≡◌, ◌≤◌, ◌<◌, ◌-◌, length, IfOk};
ghost use Rattle.vab_space.specs.Space.{blocks_of};
ghost use Rattle.vab_tables.specs.Rules.{NamesDiffer};
ghost use Rattle.vab_layout.specs.Layout.{layout_of};
ghost use Rattle.vab_layout.specs.Slots.{before_of, blocks_named, twins_by};
ghost use Rattle.vab_builder.specs.Edits.{changed, free_of, kept_blocks, resized, resized_to};
ghost use Rattle.vab_builder.specs.Edits.{updated, with_resized};
ghost use Rattle.vab_builder.specs.Judged.{AreTables, Judges};
ghost use Rattle.vab_builder.specs.Update.{IsUpdateBeside};
ghost use Rattle.vab_builder.specs.Passes.{IsResized};

use crate::counts::has_part;
use crate::fault::EditFault;
use crate::find::count_part;
use crate::groups::{is_within, resized_group};
use crate::names::{MAX_BYTES, full_name, has_store, judged_name};
use crate::parts::{kept_blocks, push_free, set_blocks};
use crate::room::{capacity, in_use};
use crate::wanted::Change;
use std::alloc::Global;
use vab_blocks::Blocks;
use vab_bytes::{Listing, Name36};
use vab_layout::{Layout, Part};
use vab_space::{blocks, fits};
use vab_tables::{NoMemory, Table};

/// The first refusal of another size of a partition.
pub(crate) fn resize_fault(
    source: &Table,
    target: &Table,
    slot: usize,
    name: &[u8],
    bytes: u64,
    apart: bool,
) -> Option<EditFault>
    requires { AreTables slot apart source.now target.now }
    ensures { Judges result
        (resized slot (twins_by apart (layout_of source.now).parts)
        (layout_of source.now) (layout_of target.now) name.now bytes) }
{
    let Some(name) = full_name(name, slot) else {
        return Some(EditFault::BadName);
    };
    if bytes > MAX_BYTES {
        return Some(EditFault::BadSize);
    }
    if !has_part(name.text(), target) {
        return Some(EditFault::Unknown);
    }
    if has_store(&name, target) {
        return Some(EditFault::HasStore);
    }
    let count = blocks(bytes);
    let (sum, limit) = resized_group(target, slot, name.text(), count);
    if !is_within(sum, limit) {
        return Some(EditFault::GroupLimit(sum, limit));
    }
    let used = in_use(
        source,
        target,
        slot,
        &Change::Blocks(name.text(), count),
        apart,
    );
    let cap = capacity(target);
    if !fits(used, cap) {
        return Some(EditFault::NoRoom(used, cap));
    }
    None
}

/// The target with another size of a partition, for which the edit was judged. `NoMemory` where
/// memory is refused.
pub(crate) fn resize(
    alloc: Global,
    twins: &[Part],
    source: &Layout,
    target: Layout,
    slot: usize,
    name: &[u8],
    bytes: u64,
) -> Result<Layout, NoMemory>
    requires update { IsUpdateBeside slot twins.now source.now target }
    requires passes { IsResized slot twins.now source.now target name.now bytes }
    ensures { IfOk result (λ l. l
        ≡ with_resized slot twins.now source.now target name.now (blocks_of bytes)) }
{
    let name = judged_name(name, slot);
    let count = blocks(bytes);
    let former = count_part(name.text(), target.parts.as_slice());
    if former == count {
        return Ok(target);
    }
    let changed = resized_blocks(alloc, twins, source, &target, slot, &name, count)?;
    Ok(with_blocks(target, &name, changed))
}

// The blocks of the partition of this name at another size: what it keeps, and then the lowest free
// ones.
fn resized_blocks(
    alloc: Global,
    twins: &[Part],
    source: &Layout,
    target: &Layout,
    slot: usize,
    name: &Name36,
    count: u64,
) -> Result<Blocks, NoMemory>
    requires slot { slot < 2 }
    requires long { 2 ≤ length name.now }
    requires room { count
        - length
        (kept_blocks (before_of slot twins.now name.now)
        (blocks_named name.now target.now.parts) count)
        ≤ length (free_of slot source.now target.now) }
    ensures { IfOk result
        (λ b. b ≡ resized_to slot twins.now source.now target.now name.now count) }
{
    let parts = target.parts.as_slice();
    let mut changed = kept_blocks(alloc, twins, parts, slot, name, count)?;
    let more = count - changed.len();
    push_free(alloc, &mut changed, source, target, slot, more)?;
    Ok(changed)
}

// The target where the partition of this name has these blocks and is marked as updated.
fn with_blocks(target: Layout, name: &Name36, blocks: Blocks) -> Layout
    requires { NamesDiffer (λ p. p.name) target.parts }
    ensures { result ≡ record target {
      parts =
          changed name.now (λ p. record (updated p) { blocks = blocks }) target.parts;
    } }
{
    let Layout {
        parts,
        groups,
        device,
        flags,
    } = target;
    let mut parts = parts.into_vec();
    set_blocks(&mut parts, name.text(), blocks);
    Layout {
        parts: Listing::from_vec(parts),
        groups,
        device,
        flags,
    }
}
