//! The target's table as an update begins, and a slot's table without stores.

ghost use Rattle.std.specs.Prelude.{◌≡◌, ◌≤◌, ◌<◌, ◌^◌, IfOk, Ok};
ghost use Rattle.vab_tables.specs.Rules.{KeepsRules};
ghost use Rattle.vab_tables.specs.Spelling.{table_size_of};
ghost use Rattle.vab_layout.specs.Layout.{layout_of, table_of};
ghost use Rattle.vab_layout.specs.Slots.{other_slot, twins_by, IsOwn, IsTargetBeside};
ghost use Rattle.vab_layout.specs.Slots.{groups_of_slot};
ghost use Rattle.vab_layout.specs.Plain.{plain};
ghost use Rattle.vab_builder.specs.Import.{imported_by};
ghost use Rattle.vab_builder.specs.Edits.{fitting};
ghost use Rattle.vab_builder.specs.Gives.{GivesTable};

use crate::EditFault;
use crate::fitting::fitting;
use crate::imported::{imported, plain};
use std::alloc::Global;
use vab_layout::Layout;
use vab_tables::{NoMemory, Table};

/// The table of the other slot as an update from this source begins: the source's groups and their
/// twins, the source's partitions and their twins with the same blocks; where the update stands
/// `apart`, the source's partitions alone. `TableFull` exactly where its text is longer than `max`
/// bytes; `NoMemory` where memory is refused.
pub fn import(
    alloc: Global,
    table: &Table,
    source: usize,
    max: u32,
    apart: bool,
) -> Result<Table, EditFault>
    requires slot { source < 2 }
    requires keeps { KeepsRules table.now }
    requires small { table_size_of table.now < 2 ^ 24 }
    requires own { IsOwn source (layout_of table.now).parts }
    ensures exact { GivesTable result
        (fitting max (imported_by apart source (layout_of table.now))) }
    ensures rules { IfOk result KeepsRules }
    ensures size { IfOk result (λ t. table_size_of t ≤ max) }
    ensures layout { IfOk result
        (λ t. layout_of t ≡ imported_by apart source (layout_of table.now)) }
    // Edits may be made of it.
    ensures target { IfOk result
        (λ t. IsTargetBeside (other_slot source) (twins_by apart (layout_of table.now).parts)
        (layout_of table.now).parts (layout_of t).parts) }
    ensures device { IfOk result (λ t. t.devices ≡ table.now.devices) }
    ensures groups { IfOk result
        (λ t. groups_of_slot (other_slot source) t.groups
        ≡ groups_of_slot source table.now.groups) }
{
    let layout = Layout::of_table(alloc, table)?;
    let target = imported(alloc, &layout, source, apart)?;
    fitting(alloc, &target, max)
}

/// The table of a slot alone, without stores. `NoMemory` where memory is refused.
pub fn without_stores(alloc: Global, table: &Table, slot: usize) -> Result<Table, NoMemory>
    requires slot { slot < 2 }
    requires keeps { KeepsRules table.now }
    requires small { table_size_of table.now < 2 ^ 24 }
    requires own { IsOwn slot (layout_of table.now).parts }
    ensures exact { IfOk result (λ t. t ≡ table_of (plain slot (layout_of table.now))) }
    ensures rules { IfOk result (λ t. KeepsRules t) }
    ensures size { IfOk result (λ t. table_size_of t < 2 ^ 32) }
    ensures layout { IfOk result (λ t. layout_of t ≡ plain slot (layout_of table.now)) }
    ensures own { IfOk result (λ t. IsOwn slot (layout_of t).parts) }
    ensures groups { IfOk result
        (λ t. groups_of_slot slot t.groups
        ≡ groups_of_slot slot table.now.groups) }
    ensures device { IfOk result (λ t. t.devices ≡ table.now.devices) }
{
    let layout = Layout::of_table(alloc, table)?;
    plain(alloc, &layout, slot)?.to_table(alloc)
}
