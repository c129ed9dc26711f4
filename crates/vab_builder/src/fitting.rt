//! A table whose text has room in a copy.

ghost use Rattle.std.specs.Prelude.{◌≡◌, ◌≤◌, ◌<◌, ◌^◌, length, sum_by, IfOk};
ghost use Rattle.vab_tables.specs.Rules.{KeepsRules};
ghost use Rattle.vab_tables.specs.Spelling.{table_size_of};
ghost use Rattle.vab_blocks.specs.Runs.{runs_of};
ghost use Rattle.vab_layout.specs.Layout.{layout_of};
ghost use Rattle.vab_layout.specs.Rules.{IsLayout};
ghost use Rattle.vab_builder.specs.Edits.{fitting};
ghost use Rattle.vab_builder.specs.Gives.{GivesTable};

use crate::EditFault;
use std::alloc::Global;
use vab_layout::Layout;
use vab_tables::Table;

/// The table of a layout. `TableFull` exactly where its text is longer than `max` bytes; `NoMemory`
/// where memory is refused.
pub(crate) fn fitting(alloc: Global, layout: &Layout, max: u32) -> Result<Table, EditFault>
    requires rules { IsLayout layout.now }
    requires parts { length layout.now.parts < 2 ^ 56 }
    requires groups { length layout.now.groups < 2 ^ 56 }
    requires runs { sum_by (λ p. length (runs_of p.blocks)) layout.now.parts < 2 ^ 58 }
    ensures exact { GivesTable result (fitting max layout.now) }
    ensures rules { IfOk result (λ t. KeepsRules t) }
    ensures size { IfOk result (λ t. table_size_of t ≤ max) }
    ensures layout { IfOk result (λ t. layout_of t ≡ layout.now) }
{
    let size = layout.text_size();
    if size > u64::from(max) {
        return Err(EditFault::TableFull(size, max));
    }
    match layout.to_table(alloc) {
        Ok(table) => Ok(table),
        Err(_) => Err(EditFault::NoMemory),
    }
}
