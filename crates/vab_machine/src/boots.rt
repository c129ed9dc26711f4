//! Boot control of a state: a slot is set active, booted, or marked as one that works.

ghost use Rattle.std.specs.Prelude.{◌≡◌, IfOk, is_some, None};
ghost use Rattle.vab_bootctl.specs.Boot.{activated_of};
ghost use Rattle.vab_model.specs.State.{images_at, has_images, with_control};
ghost use Rattle.vab_model.specs.Commands.{SetActive, Boot, Mark};
ghost use Rattle.vab_model.specs.Effects.{after_of};
ghost use Rattle.vab_model.specs.Machine.{machine_effect};

use crate::answer::refuse;
use std::alloc::Global;
use vab_bootctl::{Control, activated, booted, marked};
use vab_model::{NoMemory, Refusal, Reply, State};

// Which slots have images.
fn has_images(state: &State) -> [bool; 2]
    ensures { result ≡ has_images state.now }
{
    [state.a.is_some(), state.b.is_some()]
}

// A copy of the state with this boot control.
fn under(alloc: Global, state: &State, control: &Control) -> Result<State, NoMemory>
    ensures { IfOk result (λ s. s ≡ with_control control.now state.now) }
{
    Ok(State {
        control: *control,
        ..state.copy(alloc)?
    })
}

// Whether the slot has images; any but 0 is b.
fn is_there(state: &State, slot: usize) -> bool
    ensures { result ≡ is_some (images_at state.now slot) }
{
    if slot == 0 {
        state.a.is_some()
    } else {
        state.b.is_some()
    }
}

// Boot control after the slot was set active; any but 0 is b.
#[tactic(auto, unfolding(vab_bootctl::specs::Boot::activated_of))]
fn activated_at(control: &Control, slot: usize) -> Control
    ensures { result ≡ activated_of control.now slot }
{
    if slot == 0 {
        activated(control, 0)
    } else {
        activated(control, 1)
    }
}

#[tactic(auto, unfolding(vab_model::specs::Machine::machine_effect))]
pub(crate) fn set_active(
    alloc: Global,
    state: &State,
    slot: usize,
) -> Result<(State, Reply), NoMemory>
    ensures state { IfOk result (λ r. r.0
        ≡ after_of state.now (machine_effect state.now None (SetActive slot))) }
    ensures reply { IfOk result (λ r. r.1
        ≡ (machine_effect state.now None (SetActive slot)).reply) }
{
    if !is_there(state, slot) {
        return refuse(alloc, state, Refusal::NoImages);
    }
    let control = activated_at(&state.control, slot);
    Ok((under(alloc, state, &control)?, Reply::Done))
}

#[tactic(auto, unfolding(vab_model::specs::Machine::machine_effect))]
pub(crate) fn boot(alloc: Global, state: &State) -> Result<(State, Reply), NoMemory>
    ensures state { IfOk result (λ r. r.0
        ≡ after_of state.now (machine_effect state.now None Boot)) }
    ensures reply { IfOk result (λ r. r.1
        ≡ (machine_effect state.now None Boot).reply) }
{
    let control = booted(&state.control, has_images(state));
    Ok((
        under(alloc, state, &control)?,
        Reply::Booted(control.current),
    ))
}

#[tactic(auto, unfolding(vab_model::specs::Machine::machine_effect))]
pub(crate) fn mark(alloc: Global, state: &State) -> Result<(State, Reply), NoMemory>
    ensures state { IfOk result (λ r. r.0
        ≡ after_of state.now (machine_effect state.now None Mark)) }
    ensures reply { IfOk result (λ r. r.1
        ≡ (machine_effect state.now None Mark).reply) }
{
    let control = marked(&state.control);
    Ok((under(alloc, state, &control)?, Reply::Done))
}
