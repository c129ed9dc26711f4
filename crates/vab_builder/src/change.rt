//! An edit of the target's layout.

ghost use Rattle.std.specs.Prelude.{◌≡◌, ◌≤◌, ◌+◌, ◌^◌, length, sum_by, IfOk, Ok};
ghost use Rattle.vab_blocks.specs.Runs.{runs_of};
ghost use Rattle.vab_layout.specs.Rules.{IsLayout};
ghost use Rattle.vab_layout.specs.Slots.{IsTargetBeside, groups_of_slot};
ghost use Rattle.vab_builder.specs.Asked.{edited_name, HasAsked, KeepsOthers};
ghost use Rattle.vab_builder.specs.Edits.{changed_beside};
ghost use Rattle.vab_builder.specs.Judged.{IsGiven};
ghost use Rattle.vab_builder.specs.Update.{IsUpdateBeside};

use crate::create::create;
use crate::delete::delete;
use crate::edit::Edit;
use crate::resize::resize;
use crate::store::add_store;
use std::alloc::Global;
use vab_layout::{Layout, Part};
use vab_tables::NoMemory;

// The target's layout after an edit that was judged.
fn changed(
    alloc: Global,
    twins: &[Part],
    source: &Layout,
    target: Layout,
    slot: usize,
    edit: &Edit,
) -> Result<Layout, NoMemory>
    requires update { IsUpdateBeside slot twins.now source.now target }
    requires passes { IsGiven (changed_beside slot twins.now source.now target edit.now) }
    ensures { IfOk result
        (λ l. changed_beside slot twins.now source.now target edit.now ≡ Ok l) }
{
    match *edit {
        Edit::Create(name, bytes) => create(alloc, twins, source, target, slot, name, bytes),
        Edit::Resize(name, bytes) => resize(alloc, twins, source, target, slot, name, bytes),
        Edit::Delete(name) => Ok(delete(target, name)),
        Edit::AddStore(name, bytes) => add_store(alloc, source, target, slot, name, bytes),
    }
}

/// The target's layout after an edit that was judged, beside the source's and its twins. `NoMemory`
/// where memory is refused.
pub(crate) fn change(
    alloc: Global,
    twins: &[Part],
    source: &Layout,
    target: Layout,
    slot: usize,
    edit: &Edit,
) -> Result<Layout, NoMemory>
    requires update { IsUpdateBeside slot twins.now source.now target }
    requires passes { IsGiven (changed_beside slot twins.now source.now target edit.now) }
    ensures exact { IfOk result
        (λ l. changed_beside slot twins.now source.now target edit.now ≡ Ok l) }
    ensures asked { IfOk result (HasAsked edit.now target) }
    ensures others { IfOk result (KeepsOthers (edited_name edit.now) target) }
    ensures rules { IfOk result IsLayout }
    ensures parts { IfOk result (λ l. IsTargetBeside slot twins.now source.now.parts l.parts) }
    ensures device { IfOk result (λ l. l.device ≡ target.device) }
    ensures groups { IfOk result
        (λ l. groups_of_slot slot l.groups
        ≡ groups_of_slot slot target.groups) }
    // A partition more at most, a group more at most, and not too many runs more.
    ensures few_parts { IfOk result (λ l. length l.parts ≤ length target.parts + 1) }
    ensures few_groups { IfOk result (λ l. length l.groups ≤ length target.groups + 1) }
    ensures few_runs { IfOk result
        (λ l. sum_by (λ p. length (runs_of p.blocks)) l.parts
        ≤ sum_by (λ p. length (runs_of p.blocks)) target.parts + 2 ^ 40) }
{
    changed(alloc, twins, source, target, slot, edit)
}
