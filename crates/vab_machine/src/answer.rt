//! The state after a command, and the reply.

ghost use Rattle.std.specs.Prelude.{◌≡◌, ◌<◌, ◌^◌, IfOk};
ghost use Rattle.vab_model.specs.Effects.{after_of};
ghost use Rattle.vab_model.specs.Machine.{planned, if_room, if_within};
ghost use Rattle.vab_model.specs.Plans.{images_of};
ghost use Rattle.vab_machine.specs.Small.{IsSmall, IsSmallPlan};

use crate::count::{group_bytes, in_use, is_within, limit_of};
use crate::parts::images_of;
use std::alloc::Global;
use vab_bytes::Name36;
use vab_model::{NoMemory, Phase, Plan, Refusal, Reply, State};

/// A command that is refused.
pub(crate) fn refuse(
    alloc: Global,
    state: &State,
    refusal: Refusal,
) -> Result<(State, Reply), NoMemory>
    ensures state { IfOk result (λ r. r.0 ≡ state.now) }
    ensures reply { IfOk result (λ r. r.1 ≡ Reply.Refused refusal) }
{
    Ok((state.copy(alloc)?, Reply::Refused(refusal)))
}

/// An update from this source with this plan.
pub(crate) fn planned(
    alloc: Global,
    state: &State,
    source: usize,
    plan: Plan,
) -> Result<(State, Reply), NoMemory>
    ensures state { IfOk result (λ r. r.0 ≡ after_of state.now (planned state.now source plan)) }
    ensures reply { IfOk result (λ r. r.1 ≡ (planned state.now source plan).reply) }
{
    let next = State {
        phase: Phase::Installing(source, plan),
        ..state.copy(alloc)?
    };
    Ok((next, Reply::Done))
}

/// The same, where there is room for it.
#[tactic(auto, using(crate::proofs::Bounds::state_in_use_fits))]
pub(crate) fn if_room(
    alloc: Global,
    state: &State,
    source: usize,
    plan: Plan,
) -> Result<(State, Reply), NoMemory>
    requires small { IsSmall state.now }
    requires plan { IsSmallPlan plan.entries }
    ensures state { IfOk result (λ r. r.0 ≡ after_of state.now (if_room state.now source plan)) }
    ensures reply { IfOk result (λ r. r.1 ≡ (if_room state.now source plan).reply) }
{
    let used = in_use(alloc, images_of(state, source), &plan)?;
    if used <= state.cap {
        planned(alloc, state, source, plan)
    } else {
        refuse(alloc, state, Refusal::NoRoom(used, state.cap))
    }
}

/// The same, where the limit of this group isn't passed either.
#[tactic(auto, using(crate::proofs::Bounds::group_fits))]
pub(crate) fn if_within(
    alloc: Global,
    state: &State,
    source: usize,
    group: &Option<Name36>,
    plan: Plan,
) -> Result<(State, Reply), NoMemory>
    requires small { IsSmall state.now }
    requires plan { IsSmallPlan plan.entries }
    ensures state { IfOk result
        (λ r. r.0 ≡ after_of state.now (if_within state.now source group.now plan)) }
    ensures reply { IfOk result (λ r. r.1 ≡ (if_within state.now source group.now plan).reply) }
{
    let sum = group_bytes(group, plan.entries.as_slice());
    let limit = limit_of(&state.groups, group);
    if is_within(sum, limit) {
        if_room(alloc, state, source, plan)
    } else {
        refuse(alloc, state, Refusal::GroupLimit(sum, limit))
    }
}
