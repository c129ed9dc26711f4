//! A partition less.

ghost use Rattle.std.specs.Prelude.{◌≡◌, ◌<◌};
ghost use Rattle.vab_tables.specs.Rules.{NamesDiffer};
ghost use Rattle.vab_layout.specs.Layout.{layout_of};
ghost use Rattle.vab_builder.specs.Edits.{deleted, with_deleted};
ghost use Rattle.vab_builder.specs.Judged.{Judges};

use crate::counts::has_part;
use crate::fault::EditFault;
use crate::names::{full_name, has_store};
use crate::parts::remove_part;
use vab_bytes::Listing;
use vab_layout::Layout;
use vab_tables::Table;

/// The first refusal of a partition less.
pub(crate) fn delete_fault(target: &Table, slot: usize, name: &[u8]) -> Option<EditFault>
    requires { slot < 2 }
    ensures { Judges result (deleted slot (layout_of target.now) name.now) }
{
    let Some(name) = full_name(name, slot) else {
        return Some(EditFault::BadName);
    };
    if !has_part(name.text(), target) {
        return Some(EditFault::Unknown);
    }
    if has_store(&name, target) {
        return Some(EditFault::HasStore);
    }
    None
}

/// The target without the partition of this name.
pub(crate) fn delete(target: Layout, name: &[u8]) -> Layout
    requires { NamesDiffer (λ p. p.name) target.parts }
    ensures { result ≡ with_deleted target name.now }
{
    let Layout {
        parts,
        groups,
        device,
        flags,
    } = target;
    let mut parts = parts.into_vec();
    remove_part(&mut parts, name);
    Layout {
        parts: Listing::from_vec(parts),
        groups,
        device,
        flags,
    }
}
