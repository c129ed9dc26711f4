//! All that is decided and allocated before the first write.

ghost use Rattle.std.specs.Prelude.{◌≡◌, ℕ, IfErr, IfOk, IfNone, IfSome, Some, None};
ghost use Rattle.vab_layout.specs.Layout.{layout_of};
ghost use Rattle.vab_layout.specs.Slots.{other_slot, twins_by};
ghost use Rattle.vab_builder.specs.Edits.{edited_beside};
ghost use Rattle.vab_device.specs.Kept.{IsDevice};
ghost use Rattle.vab_device.specs.Updates.{refusal_of};
ghost use Rattle.vab_edit.specs.Prepared.{IsGiven, IsPrepared, MayBeEdited};
ghost use Rattle.vab_edit.specs.Tables.{HasTables};
ghost use Rattle.vab_edit.specs.Prepared.{Refuses, RefusesBy};

use crate::guard::kept_off;
use std::alloc::Global;
use vab_builder::{Edit, EditFault, apply};
use vab_bytes::Listing;
use vab_device::{Device, Part};
use vab_model::Refusal;
use vab_plan::plan;
use vab_tables::{Table, encode_table};

/// The table that an edit gives, with its text, and its plan with nothing written.
#[derive(Drop)]
pub struct Prepared {
    pub table: Table,
    pub text: Vec<u8>,
    pub plan: Listing<Part>,
}

// Why an edit is refused.
fn refusal(fault: EditFault) -> Refusal
    ensures { result ≡ refusal_of fault }
{
    match fault {
        EditFault::BadName => Refusal::BadName,
        EditFault::BadSize => Refusal::BadSize,
        EditFault::Unknown => Refusal::Unknown,
        EditFault::Exists => Refusal::Exists,
        EditFault::HasStore => Refusal::HasStore,
        EditFault::TooMany(_) => Refusal::TooMany,
        EditFault::GroupLimit(used, limit) => Refusal::GroupLimit(used, limit),
        EditFault::NoRoom(used, cap) => Refusal::NoRoom(used, cap),
        EditFault::TableFull(size, most) => Refusal::TableFull(size, u64::from(most)),
        EditFault::NoMemory => Refusal::NoMemory,
    }
}

// The tables of the source and of the target, while an update is installed.
fn tables(device: &Device) -> Option<(&Table, &Table)>
    requires { (size : ℕ) × IsDevice device.now size }
    ensures some { IfSome result (λ ts. HasTables device.now ts.0.now ts.1.now) }
    ensures none { IfNone result (device.now.plan ≡ None) }
{
    match (&device.plan, &device.table_a, &device.table_b) {
        (Some(_), Some(a), Some(b)) => {
            if device.mark.slot == 0 {
                Some((a, b))
            } else {
                Some((b, a))
            }
        }
        _ => None,
    }
}

// What an edit gives beside the source's table, apart from it or not, or the first refusal.
fn given(
    alloc: Global,
    source: &Table,
    target: &Table,
    slot: usize,
    edit: &Edit,
    max: u32,
    apart: bool,
) -> Result<Prepared, Refusal>
    requires tables { MayBeEdited apart max slot source.now target.now }
    ensures given { IfOk result (λ p. IsGiven apart max slot edit.now source.now target.now p.table
        p.text.items p.plan) }
    ensures refused { IfErr result (RefusesBy
        (edited_beside (other_slot slot) (twins_by apart (layout_of source.now).parts)
        (layout_of source.now) (layout_of target.now) max edit.now)) }
{
    match apply(alloc, source, target, 1 - slot, edit, max, apart) {
        Err(fault) => Err(refusal(fault)),
        Ok(table) => match encode_table(alloc, &table) {
            Err(_) => Err(Refusal::NoMemory),
            Ok(text) => match plan(alloc, &table, 1 - slot, Vec::new(alloc)) {
                Err(_) => Err(Refusal::NoMemory),
                Ok(plan) => Ok(Prepared { table, text, plan }),
            },
        },
    }
}

/// What an edit gives of a device's tables, or the first refusal.
pub fn prepare(alloc: Global, device: &Device, edit: &Edit) -> Result<Prepared, Refusal>
    requires kept { (size : ℕ) × IsDevice device.now size }
    ensures prepared { IfOk result
        (λ p. IsPrepared device.now edit.now p.table p.text.items p.plan) }
    ensures refused { IfErr result (Refuses device.now edit.now) }
{
    match tables(device) {
        None => Err(Refusal::NotInstalling),
        Some((source, target)) => match kept_off(device, edit) {
            Some(refusal) => Err(refusal),
            None => given(
                alloc,
                source,
                target,
                device.mark.slot,
                edit,
                device.geometry.max,
                device.mark.apart,
            ),
        },
    }
}
