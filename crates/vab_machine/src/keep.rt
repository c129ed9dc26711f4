//! What a physical partition of the source holds, as what that of the target holds.

ghost use Rattle.std.specs.Prelude.{◌≡◌, IfOk, Some};
ghost use Rattle.std.specs.Option.{option_copied};
ghost use Rattle.vab_model.specs.Effects.{after_of};
ghost use Rattle.vab_model.specs.Machine.{if_installing, keep_held, keep_physical, keep_row};

use crate::answer::refuse;
use crate::parts::{base_named, installing, is_planned, other_slot};
use crate::physical::{held_by, physical_named, with_held};
use std::alloc::Global;
use vab_bytes::Bytes;
use vab_model::{NoMemory, Physical, Refusal, Reply, State};

// These bytes, if that of the source holds any, are what that of the target holds.
fn keep_held(
    alloc: Global,
    state: &State,
    target: usize,
    partition: &Physical,
    held: &Option<Bytes>,
) -> Result<(State, Reply), NoMemory>
    ensures state { IfOk result (λ r. r.0
        ≡ after_of state.now (keep_held state.now target partition.now held.now)) }
    ensures reply { IfOk result (λ r. r.1
        ≡ (keep_held state.now target partition.now held.now).reply) }
{
    let Some(bytes) = held else {
        return refuse(alloc, state, Refusal::NoImages);
    };
    let next = with_held(
        alloc,
        state,
        target,
        partition.name.text(),
        bytes.as_slice(),
    )?;
    Ok((next, Reply::Done))
}

// That of the target, where it is found and holds nothing that counts; otherwise the plan may have
// an entry of its name.
fn keep_physical(
    alloc: Global,
    state: &State,
    source: usize,
    planned: bool,
    found: Option<&Physical>,
) -> Result<(State, Reply), NoMemory>
    ensures state { IfOk result (λ r. r.0
        ≡ after_of state.now
        (keep_physical state.now source planned (option_copied found.entry))) }
    ensures reply { IfOk result (λ r. r.1
        ≡ (keep_physical state.now source planned (option_copied found.entry)).reply) }
{
    let Some(partition) = found else {
        if planned {
            return refuse(alloc, state, Refusal::NotPhysical);
        }
        return refuse(alloc, state, Refusal::Unknown);
    };
    let target = other_slot(source);
    if held_by(target, partition).is_some() {
        return refuse(alloc, state, Refusal::Written);
    }
    let held = held_by(source, partition);
    keep_held(alloc, state, target, partition, held)
}

/// What the source's physical partition holds becomes what that of the target holds.
pub(crate) fn keep(alloc: Global, state: &State, name: &[u8]) -> Result<(State, Reply), NoMemory>
    ensures state { IfOk result (λ r. r.0
        ≡ after_of state.now (if_installing state.now.phase (keep_row state.now name.now))) }
    ensures reply { IfOk result (λ r. r.1
        ≡ (if_installing state.now.phase (keep_row state.now name.now)).reply) }
{
    let Some((source, plan)) = installing(state) else {
        return refuse(alloc, state, Refusal::NotInstalling);
    };
    let Some(base) = base_named(name, source) else {
        return refuse(alloc, state, Refusal::BadName);
    };
    let planned = is_planned(plan.entries.as_slice(), base.text());
    let found = physical_named(state.physical.as_slice(), base.text());
    keep_physical(alloc, state, source, planned, found)
}
