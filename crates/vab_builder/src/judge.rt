//! An edit of an update's target, judged before it is made.

ghost use Rattle.std.specs.Prelude.{◌≡◌, ◌<◌, Err, IfNone, IfSome};
ghost use Rattle.vab_tables.specs.Rules.{KeepsRules};
ghost use Rattle.vab_layout.specs.Layout.{layout_of};
ghost use Rattle.vab_layout.specs.Slots.{other_slot, twins_by, IsOwn, IsTargetBeside};
ghost use Rattle.vab_builder.specs.Edits.{changed_beside};
ghost use Rattle.vab_builder.specs.Judged.{AreTables, IsGiven, Judges};

use crate::create::create_fault;
use crate::delete::delete_fault;
use crate::resize::resize_fault;
use crate::store::store_fault;
use crate::{Edit, EditFault};
use vab_tables::Table;

// The first refusal of an edit.
fn fault(source: &Table, target: &Table, slot: usize, edit: &Edit, apart: bool) -> Option<EditFault>
    requires { AreTables slot apart source.now target.now }
    ensures { Judges result
        (changed_beside slot (twins_by apart (layout_of source.now).parts)
        (layout_of source.now) (layout_of target.now) edit.now) }
{
    match *edit {
        Edit::Create(name, bytes) => create_fault(source, target, slot, name, bytes, apart),
        Edit::Resize(name, bytes) => resize_fault(source, target, slot, name, bytes, apart),
        Edit::Delete(name) => delete_fault(target, slot, name),
        Edit::AddStore(name, bytes) => store_fault(source, target, slot, name, bytes, apart),
    }
}

/// Why an edit of the target's table, beside the source's, is refused; `None` where it is not, as
/// far as can be told before the new table's text is measured. The first refusal in the order of
/// `EditFault`. Takes no memory. Where the target stands `apart`, no partition of the source is a
/// twin of one of the target's.
pub(crate) fn verdict(
    source: &Table,
    target: &Table,
    target_slot: usize,
    edit: &Edit,
    apart: bool,
) -> Option<EditFault>
    requires slot { target_slot < 2 }
    requires source_keeps { KeepsRules source.now }
    requires target_keeps { KeepsRules target.now }
    requires source_own { IsOwn (other_slot target_slot) (layout_of source.now).parts }
    requires target { IsTargetBeside target_slot (twins_by apart (layout_of source.now).parts)
        (layout_of source.now).parts (layout_of target.now).parts }
    requires device { source.now.devices ≡ target.now.devices }
    ensures passes { IfNone result (IsGiven
        (changed_beside target_slot (twins_by apart (layout_of source.now).parts)
        (layout_of source.now) (layout_of target.now) edit.now)) }
    ensures refused { IfSome result (λ f.
        changed_beside target_slot (twins_by apart (layout_of source.now).parts)
        (layout_of source.now) (layout_of target.now) edit.now
        ≡ Err f) }
{
    fault(source, target, target_slot, edit, apart)
}
