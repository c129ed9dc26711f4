//! Edits of the target's table.

ghost use Rattle.std.specs.Prelude.{◌≡◌, ◌≤◌, ◌<◌, ◌^◌, IfOk, IfErr, Ok};
ghost use Rattle.vab_tables.specs.Rules.{KeepsRules};
ghost use Rattle.vab_tables.specs.Spelling.{table_size_of};
ghost use Rattle.vab_layout.specs.Layout.{layout_of, table_of};
ghost use Rattle.vab_layout.specs.Slots.{other_slot, twins_by, IsOwn, IsTargetBeside};
ghost use Rattle.vab_layout.specs.Slots.{groups_of_slot};
ghost use Rattle.vab_builder.specs.Asked.{edited_name, HasAsked, KeepsOthers};
ghost use Rattle.vab_builder.specs.Edits.{changed_beside, edited_beside};
ghost use Rattle.vab_builder.specs.Gives.{GivesTable};
ghost use Rattle.vab_builder.specs.Judged.{IsRefused};

use crate::change::change;
use crate::fitting::fitting;
use crate::judge::verdict;
use crate::{Edit, EditFault};
use std::alloc::Global;
use vab_layout::Layout;
use vab_tables::Table;

/// The target's table after an edit, beside the source's. The refusals come in the order of
/// `EditFault`, each exactly where it says. The edit is judged before any memory is taken, so
/// `NoMemory` stands in place of `TableFull` or of a table alone.
///
/// A partition begins with the blocks of its twin, the source's partition of the same base name, as
/// many as it has or all, and then has the lowest free ones. Where the target stands `apart`, no
/// partition has a twin, so it takes no block of the source.
pub fn apply(
    alloc: Global,
    source: &Table,
    target: &Table,
    target_slot: usize,
    edit: &Edit,
    max: u32,
    apart: bool,
) -> Result<Table, EditFault>
    requires slot { target_slot < 2 }
    requires source_keeps { KeepsRules source.now }
    requires target_keeps { KeepsRules target.now }
    requires source_small { table_size_of source.now < 2 ^ 24 }
    requires target_small { table_size_of target.now < 2 ^ 24 }
    requires source_own { IsOwn (other_slot target_slot) (layout_of source.now).parts }
    requires target { IsTargetBeside target_slot (twins_by apart (layout_of source.now).parts)
        (layout_of source.now).parts (layout_of target.now).parts }
    requires device { source.now.devices ≡ target.now.devices }
    ensures exact { GivesTable result
        (edited_beside target_slot (twins_by apart (layout_of source.now).parts)
        (layout_of source.now) (layout_of target.now) max edit.now) }
    // Where the edit is refused before its table's text is measured, that refusal is told.
    ensures refused { IfErr result (IsRefused
        (changed_beside target_slot (twins_by apart (layout_of source.now).parts)
        (layout_of source.now) (layout_of target.now) edit.now)) }
    ensures rules { IfOk result KeepsRules }
    ensures size { IfOk result (λ t. table_size_of t ≤ max) }
    // Its layout is that which the edit gives.
    ensures layout { IfOk result (λ t.
        changed_beside target_slot (twins_by apart (layout_of source.now).parts)
        (layout_of source.now) (layout_of target.now) edit.now
        ≡ Ok (layout_of t)) }
    // The partition that the edit makes or changes, or its store, has exactly the blocks that are
    // asked for, and each other one is as before.
    ensures asked { IfOk result
        (λ t. HasAsked edit.now (layout_of target.now) (layout_of t)) }
    ensures others { IfOk result
        (λ t. KeepsOthers (edited_name edit.now) (layout_of target.now) (layout_of t)) }
    // Further edits may be made of it.
    ensures target { IfOk result
        (λ t. IsTargetBeside target_slot (twins_by apart (layout_of source.now).parts)
        (layout_of source.now).parts (layout_of t).parts) }
    ensures device { IfOk result (λ t. t.devices ≡ target.now.devices) }
    ensures groups { IfOk result
        (λ t. groups_of_slot target_slot t.groups ≡ groups_of_slot target_slot target.now.groups) }
{
    if let Some(fault) = verdict(source, target, target_slot, edit, apart) {
        return Err(fault);
    }
    let old = Layout::of_table(alloc, target)?;
    let source = Layout::of_table(alloc, source)?;
    let target = change(alloc, source.twins(apart), &source, old, target_slot, edit)?;
    fitting(alloc, &target, max)
}
