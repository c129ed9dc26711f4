//! The end of an update: dropped or merged.

ghost use Rattle.std.specs.Prelude.{◌≡◌, IfOk, None};
ghost use Rattle.vab_bootctl.specs.Boot.{info_at};
ghost use Rattle.vab_model.specs.Effects.{after_of};
ghost use Rattle.vab_model.specs.Machine.{dropped, without_images, cancelled, cancel_row};
ghost use Rattle.vab_model.specs.Machine.{merging_from, begin_merge_row, merge_row};

use crate::answer::refuse;
use crate::parts::other_slot;
use crate::physical::all_blank;
use std::alloc::Global;
use vab_bootctl::{Control, Info};
use vab_model::{NoMemory, Phase, Refusal, Reply, State};

const NO_INFO: Info = Info {
    priority: 0,
    tries: 0,
    successful: false,
};

// Slot a has no images any more.
fn without_a(state: State) -> State
    ensures { result ≡ dropped state None state.b }
{
    let b = if state.b.is_some() {
        state.control.b
    } else {
        NO_INFO
    };
    State {
        a: None,
        control: Control {
            a: NO_INFO,
            b,
            ..state.control
        },
        ..state
    }
}

// Nor has slot b.
fn without_b(state: State) -> State
    ensures { result ≡ dropped state state.a None }
{
    let a = if state.a.is_some() {
        state.control.a
    } else {
        NO_INFO
    };
    State {
        b: None,
        control: Control {
            a,
            b: NO_INFO,
            ..state.control
        },
        ..state
    }
}

// A slot has no images any more, and its physical partitions hold nothing that counts; any but 0
// is b.
fn without_images(alloc: Global, state: &State, slot: usize) -> Result<State, NoMemory>
    ensures { IfOk result (λ s. s ≡ without_images state.now slot) }
{
    let physical = all_blank(alloc, slot, state.physical.as_slice())?;
    let copy = state.copy(alloc)?;
    let left = if slot == 0 {
        without_a(copy)
    } else {
        without_b(copy)
    };
    Ok(State { physical, ..left })
}

// The update from this source is dropped.
fn cancelled(alloc: Global, state: &State, source: usize) -> Result<(State, Reply), NoMemory>
    ensures state { IfOk result (λ r. r.0 ≡ cancelled state.now source) }
    ensures reply { IfOk result (λ r. r.1 ≡ Reply.Done) }
{
    let next = State {
        phase: Phase::Idle,
        ..without_images(alloc, state, other_slot(source))?
    };
    Ok((next, Reply::Done))
}

/// Drops an update.
pub(crate) fn cancel(alloc: Global, state: &State) -> Result<(State, Reply), NoMemory>
    ensures state { IfOk result
        (λ r. r.0 ≡ after_of state.now (cancel_row state.now state.now.phase)) }
    ensures reply { IfOk result (λ r. r.1 ≡ (cancel_row state.now state.now.phase).reply) }
{
    match state.phase {
        Phase::Idle => refuse(alloc, state, Refusal::NothingToCancel),
        Phase::Installing(source, _) => cancelled(alloc, state, source),
        Phase::Staged(source, _) => {
            if state.control.current == source {
                cancelled(alloc, state, source)
            } else {
                refuse(alloc, state, Refusal::RunningTarget)
            }
        }
        Phase::Merging(_, _) => refuse(alloc, state, Refusal::Merging),
    }
}

// What boot control says of a slot; any but 0 is b.
fn info_at(control: &Control, slot: usize) -> Info
    ensures { result ≡ info_at control.now slot }
{
    if slot == 0 { control.a } else { control.b }
}

// The images of the source are given up.
fn merging_from(
    alloc: Global,
    state: &State,
    source: usize,
    left: u64,
) -> Result<(State, Reply), NoMemory>
    ensures state { IfOk result (λ r. r.0 ≡ merging_from state.now source left) }
    ensures reply { IfOk result (λ r. r.1 ≡ Reply.Done) }
{
    let next = State {
        phase: Phase::Merging(other_slot(source), left),
        ..without_images(alloc, state, source)?
    };
    Ok((next, Reply::Done))
}

/// Begins to merge an update.
pub(crate) fn begin_merge(alloc: Global, state: &State) -> Result<(State, Reply), NoMemory>
    ensures state { IfOk result
        (λ r. r.0 ≡ after_of state.now (begin_merge_row state.now state.now.phase)) }
    ensures reply { IfOk result
        (λ r. r.1 ≡ (begin_merge_row state.now state.now.phase).reply) }
{
    let Phase::Staged(source, left) = state.phase else {
        return refuse(alloc, state, Refusal::NotStaged);
    };
    if state.control.current == source {
        return refuse(alloc, state, Refusal::NotRunningTarget);
    }
    if !info_at(&state.control, other_slot(source)).successful {
        return refuse(alloc, state, Refusal::NotSuccessful);
    }
    merging_from(alloc, state, source, left)
}

/// Takes so many turns of a merge.
#[tactic(auto, using(crate::proofs::Turns::turns_some, crate::proofs::Turns::turns_all))]
pub(crate) fn merge(alloc: Global, state: &State, count: u64) -> Result<(State, Reply), NoMemory>
    ensures state { IfOk result
        (λ r. r.0 ≡ after_of state.now (merge_row state.now count state.now.phase)) }
    ensures reply { IfOk result
        (λ r. r.1 ≡ (merge_row state.now count state.now.phase).reply) }
{
    let Phase::Merging(target, left) = state.phase else {
        return refuse(alloc, state, Refusal::NotMerging);
    };
    let (phase, reply) = if count <= left {
        (
            Phase::Merging(target, left - count),
            Reply::Left(left - count),
        )
    } else {
        (Phase::Idle, Reply::Merged)
    };
    let next = State {
        phase,
        ..state.copy(alloc)?
    };
    Ok((next, reply))
}
