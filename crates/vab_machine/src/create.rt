//! The begin of an update, and a partition more.

ghost use Rattle.std.specs.Prelude.{◌≡◌, ◌^◌, IfOk};
ghost use Rattle.vab_model.specs.Effects.{after_of, if_plain};
ghost use Rattle.vab_model.specs.Machine.{begin_row, create_row, has_name, if_installing};
ghost use Rattle.vab_machine.specs.Small.{IsSmall};

use crate::answer::{if_within, planned, refuse};
use crate::change::{begun_plan, with_created, with_entries};
use crate::parts::{base_named, first_group, installing, is_planned};
use crate::physical::is_physical;
use std::alloc::Global;
use vab_model::{NoMemory, Phase, Plan, Refusal, Reply, State};
use vab_names::MAX_PARTITIONS;

/// The most bytes of a partition.
pub(crate) const MOST: u64 = 1 << 40;

/// An update from the current slot, whose target stands apart or not; over no overlay.
pub(crate) fn begin(alloc: Global, state: &State, apart: bool) -> Result<(State, Reply), NoMemory>
    ensures state { IfOk result
        (λ r. r.0
        ≡ after_of state.now
        (if_plain state.now.overlay (begin_row state.now apart state.now.phase))) }
    ensures reply { IfOk result
        (λ r. r.1
        ≡ (if_plain state.now.overlay (begin_row state.now apart state.now.phase)).reply) }
{
    if state.overlay.is_some() {
        return refuse(alloc, state, Refusal::NotIdle);
    }
    let Phase::Idle = &state.phase else {
        return refuse(alloc, state, Refusal::NotIdle);
    };
    let current = state.control.current;
    let images = if current == 0 { &state.a } else { &state.b };
    match images {
        None => refuse(alloc, state, Refusal::NoImages),
        Some(images) => {
            let plan = begun_plan(alloc, apart, images.as_slice())?;
            planned(alloc, state, current, plan)
        }
    }
}

// Whether the target has a partition of this base name.
fn has_name(state: &State, plan: &Plan, base: &[u8]) -> bool
    ensures { result ≡ has_name state.now base.now plan.now }
{
    is_physical(state.physical.as_slice(), base) || is_planned(plan.entries.as_slice(), base)
}

/// A partition more.
pub(crate) fn create(
    alloc: Global,
    state: &State,
    name: &[u8],
    size: u64,
) -> Result<(State, Reply), NoMemory>
    requires { IsSmall state.now }
    ensures state { IfOk result (λ r. r.0
        ≡ after_of state.now
        (if_installing state.now.phase (create_row state.now name.now size))) }
    ensures reply { IfOk result
        (λ r. r.1 ≡ (if_installing state.now.phase (create_row state.now name.now size)).reply) }
{
    let Some((source, plan)) = installing(state) else {
        return refuse(alloc, state, Refusal::NotInstalling);
    };
    let Some(base) = base_named(name, source) else {
        return refuse(alloc, state, Refusal::BadName);
    };
    if size > MOST {
        return refuse(alloc, state, Refusal::BadSize);
    }
    if has_name(state, plan, base.text()) {
        return refuse(alloc, state, Refusal::Exists);
    }
    let entries = plan.entries.as_slice();
    if state.physical.len() + entries.len() >= MAX_PARTITIONS {
        return refuse(alloc, state, Refusal::TooMany);
    }
    let next = with_created(alloc, entries, &state.groups, base, size)?;
    let next = with_entries(plan, next);
    if_within(alloc, state, source, &first_group(&state.groups), next)
}
