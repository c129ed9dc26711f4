//! One command.

ghost use Rattle.std.specs.Prelude.{◌≡◌, IfOk};
ghost use Rattle.std.specs.Option.{option_copied};
ghost use Rattle.vab_model.specs.Commands.{command_of};
ghost use Rattle.vab_model.specs.Effects.{after_of};
ghost use Rattle.vab_model.specs.Machine.{machine_effect};
ghost use Rattle.vab_machine.specs.Small.{IsSmall};

use crate::boots::{boot, mark, set_active};
use crate::create::{begin, create};
use crate::edit::{delete, resize, snapshot};
use crate::flash::flash;
use crate::images::{digested, printed};
use crate::keep::keep;
use crate::overlay::{discard, overlay, write};
use crate::ready::finish;
use crate::slots::{begin_merge, cancel, merge};
use crate::wipe::update_super;
use std::alloc::Global;
use vab_model::{Command, NoMemory, Reply, State};

// What a command makes of a state, which says nothing of the size of what follows.
#[tactic(auto, unfolding(vab_model::specs::Machine::machine_effect))]
fn done(
    alloc: Global,
    state: &State,
    command: &Command,
    staged: Option<&[u8]>,
) -> Result<(State, Reply), NoMemory>
    requires { IsSmall state.now }
    ensures state { IfOk result (λ r. r.0
        ≡ after_of state.now
        (machine_effect state.now (option_copied staged.entry) (command_of command.now))) }
    ensures reply { IfOk result (λ r. r.1
        ≡ (machine_effect state.now (option_copied staged.entry) (command_of command.now)).reply) }
{
    match *command {
        Command::SetActive(slot) => set_active(alloc, state, slot),
        Command::Boot => boot(alloc, state),
        Command::Mark => mark(alloc, state),
        Command::Print(name) => printed(alloc, state, name),
        Command::Digest(name) => digested(alloc, state, name),
        Command::Begin => begin(alloc, state, false),
        Command::Factory => begin(alloc, state, true),
        Command::Create(name, size) => create(alloc, state, name, size),
        Command::Resize(name, size) => resize(alloc, state, name, size),
        Command::Delete(name) => delete(alloc, state, name),
        Command::Snapshot(name, size) => snapshot(alloc, state, name, size),
        Command::Flash(name, chunk) => flash(alloc, state, staged, name, chunk),
        Command::Keep(name) => keep(alloc, state, name),
        Command::Finish => finish(alloc, state),
        Command::Cancel => cancel(alloc, state),
        Command::BeginMerge => begin_merge(alloc, state),
        Command::Merge(count) => merge(alloc, state, count),
        Command::UpdateSuper => update_super(alloc, state, staged),
        Command::Overlay(name, size) => overlay(alloc, state, name, size),
        Command::OverlayWrite(block) => write(alloc, state, staged, block),
        Command::OverlayDiscard => discard(alloc, state),
    }
}

/// The state after a command, and the reply; the state that is given stays. `staged` is what was
/// downloaded last, if anything. The state after it is small again. `NoMemory` where memory is
/// refused. It is slow, and says with each command what the program makes of a device: of a disk,
/// its table or an order of writes it knows nothing, so it has no refusal for a table that is full,
/// nor for an image of another `super`.
pub fn step(
    alloc: Global,
    state: &State,
    command: &Command,
    staged: Option<&[u8]>,
) -> Result<(State, Reply), NoMemory>
    requires { IsSmall state.now }
    ensures state { IfOk result (λ r. r.0
        ≡ after_of state.now
        (machine_effect state.now (option_copied staged.entry) (command_of command.now))) }
    ensures reply { IfOk result (λ r. r.1
        ≡ (machine_effect state.now (option_copied staged.entry) (command_of command.now)).reply) }
    ensures small { IfOk result (λ r. IsSmall r.0) }
{
    let (next, reply) = done(alloc, state, command, staged)?;
    Ok((next, reply))
}
