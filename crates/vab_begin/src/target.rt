//! The target of an update as it begins.

ghost use Rattle.std.specs.Prelude.{◌≡◌, ◌<◌, ◌^◌, ℕ, IfOk, IfErr};
ghost use Rattle.vab_tables.specs.Rules.{KeepsRules};
ghost use Rattle.vab_tables.specs.Spelling.{table_size_of};
ghost use Rattle.vab_layout.specs.Layout.{layout_of};
ghost use Rattle.vab_layout.specs.Slots.{IsOwn};
ghost use Rattle.vab_builder.specs.declared.fault.EditFault.{EditFault as EditFaultOf};
ghost use Rattle.vab_device.specs.Kept.{IsDevice};
ghost use Rattle.vab_device.specs.Updates.{refusal_of};
ghost use Rattle.vab_plan.specs.Scans.{IsTargetTable};
ghost use Rattle.vab_begin.specs.Target.{IsSpelled, IsTargetOf, IsRefusedBy, IsTargetFor};
ghost use Rattle.vab_begin.specs.Target.{IsRefusedFor};

use std::alloc::Global;
use vab_builder::{EditFault, import};
use vab_bytes::{Bytes, Listing};
use vab_device::{Device, Part};
use vab_model::Refusal;
use vab_plan::plan;
use vab_tables::{NoMemory, Table, encode_table};

/// A target's table, its text, and its partitions, of which none is written.
#[derive(Drop)]
pub struct Target {
    pub table: Table,
    pub text: Bytes,
    pub plan: Listing<Part>,
}

// The text of a table and its plan.
fn with_text(alloc: Global, table: Table, slot: usize) -> Result<Target, EditFault>
    requires slot { slot < 2 }
    requires target { IsTargetTable slot table }
    requires small { table_size_of table < 2 ^ 32 }
    ensures spelled { IfOk result (λ x. IsSpelled slot table x) }
    ensures fault { IfErr result (λ f. f ≡ EditFaultOf.NoMemory) }
{
    let text = match encode_table(alloc, &table) {
        Ok(text) => Bytes::from_vec(text),
        Err(NoMemory) => return Err(EditFault::NoMemory),
    };
    match plan(alloc, &table, slot, Vec::new(alloc)) {
        Ok(plan) => Ok(Target { table, text, plan }),
        Err(_) => Err(EditFault::NoMemory),
    }
}

// The target of an update from this source, or why there is none.
fn target_of(
    alloc: Global,
    source: &Table,
    slot: usize,
    max: u32,
    apart: bool,
) -> Result<Target, EditFault>
    requires slot { slot < 2 }
    requires keeps { KeepsRules source.now }
    requires small { table_size_of source.now < 2 ^ 24 }
    requires own { IsOwn slot (layout_of source.now).parts }
    ensures target { IfOk result (λ x. IsTargetOf apart max slot source.now x) }
    ensures refused { IfErr result (λ f. IsRefusedBy apart max slot source.now f) }
{
    match import(alloc, source, slot, max, apart) {
        Ok(table) => with_text(alloc, table, 1 - slot),
        Err(fault) => Err(fault),
    }
}

/// The target of an update from the device's slot, which stands `apart` or not. `TableFull` exactly
/// where its text is longer than a copy may be; else `NoMemory` where memory is refused.
pub fn target_for(alloc: Global, device: &Device, apart: bool) -> Result<Target, EditFault>
    requires kept { (size : ℕ) × IsDevice device.now size }
    ensures target { IfOk result (λ x. IsTargetFor apart device.now x) }
    ensures refused { IfErr result (λ f. IsRefusedFor apart device.now f) }
{
    let source = if device.mark.slot == 0 {
        device.table_a.as_ref()
    } else {
        device.table_b.as_ref()
    };
    match source {
        Some(table) => target_of(alloc, table, device.mark.slot, device.geometry.max, apart),
        None => unreachable!(),
    }
}

/// The refusal of a command for which there is no table.
pub fn refusal(fault: EditFault) -> Refusal
    ensures { result ≡ refusal_of fault }
{
    match fault {
        EditFault::BadName => Refusal::BadName,
        EditFault::BadSize => Refusal::BadSize,
        EditFault::Unknown => Refusal::Unknown,
        EditFault::Exists => Refusal::Exists,
        EditFault::HasStore => Refusal::HasStore,
        EditFault::TooMany(_) => Refusal::TooMany,
        EditFault::GroupLimit(used, limit) => Refusal::GroupLimit(used, limit),
        EditFault::NoRoom(used, cap) => Refusal::NoRoom(used, cap),
        EditFault::TableFull(size, most) => Refusal::TableFull(size, u64::from(most)),
        EditFault::NoMemory => Refusal::NoMemory,
    }
}
