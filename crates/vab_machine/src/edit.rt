//! Edits of a partition that is planned.

ghost use Rattle.std.specs.Prelude.{◌≡◌, ◌≤◌, ◌^◌, IfOk};
ghost use Rattle.vab_model.specs.Effects.{after_of};
ghost use Rattle.vab_model.specs.Machine.{resize_row, delete_row, snapshot_row, if_installing};
ghost use Rattle.vab_model.specs.Overlay.{is_store_size};
ghost use Rattle.vab_machine.specs.Small.{IsSmall};

use crate::answer::{if_room, if_within, planned, refuse};
use crate::change::{Change, at_entry, with_entries, without_entry};
use crate::create::MOST;
use crate::parts::{base_named, entry_named, installing, is_settled};
use crate::physical::is_physical;
use std::alloc::Global;
use vab_model::{NoMemory, Refusal, Reply, State};
use vab_space::blocks;

/// Another size.
#[tactic(auto, using(crate::proofs::SmallLaws::resize_small))]
pub(crate) fn resize(
    alloc: Global,
    state: &State,
    name: &[u8],
    size: u64,
) -> Result<(State, Reply), NoMemory>
    requires { IsSmall state.now }
    ensures state { IfOk result (λ r. r.0
        ≡ after_of state.now
        (if_installing state.now.phase (resize_row state.now name.now size))) }
    ensures reply { IfOk result
        (λ r. r.1 ≡ (if_installing state.now.phase (resize_row state.now name.now size)).reply) }
{
    let Some((source, plan)) = installing(state) else {
        return refuse(alloc, state, Refusal::NotInstalling);
    };
    let Some(base) = base_named(name, source) else {
        return refuse(alloc, state, Refusal::BadName);
    };
    if size > MOST {
        return refuse(alloc, state, Refusal::BadSize);
    }
    if is_physical(state.physical.as_slice(), base.text()) {
        return refuse(alloc, state, Refusal::Physical);
    }
    let Some(entry) = entry_named(plan.entries.as_slice(), base.text()) else {
        return refuse(alloc, state, Refusal::Unknown);
    };
    if entry.store.is_some() {
        return refuse(alloc, state, Refusal::HasStore);
    }
    if is_settled(plan, entry) {
        return refuse(alloc, state, Refusal::Written);
    }
    let change = Change::Resize(blocks(size));
    let next = at_entry(alloc, plan.entries.as_slice(), base.text(), &change)?;
    if_within(alloc, state, source, &entry.group, with_entries(plan, next))
}

/// A partition less.
pub(crate) fn delete(alloc: Global, state: &State, name: &[u8]) -> Result<(State, Reply), NoMemory>
    ensures state { IfOk result (λ r. r.0
        ≡ after_of state.now
        (if_installing state.now.phase (delete_row state.now name.now))) }
    ensures reply { IfOk result
        (λ r. r.1 ≡ (if_installing state.now.phase (delete_row state.now name.now)).reply) }
{
    let Some((source, plan)) = installing(state) else {
        return refuse(alloc, state, Refusal::NotInstalling);
    };
    let Some(base) = base_named(name, source) else {
        return refuse(alloc, state, Refusal::BadName);
    };
    if is_physical(state.physical.as_slice(), base.text()) {
        return refuse(alloc, state, Refusal::Physical);
    }
    let Some(entry) = entry_named(plan.entries.as_slice(), base.text()) else {
        return refuse(alloc, state, Refusal::Unknown);
    };
    if entry.store.is_some() {
        return refuse(alloc, state, Refusal::HasStore);
    }
    if is_settled(plan, entry) {
        return refuse(alloc, state, Refusal::Written);
    }
    let next = without_entry(alloc, plan.entries.as_slice(), base.text())?;
    planned(alloc, state, source, with_entries(plan, next))
}

/// Whether a store may have so many bytes: none, or more than a block.
pub(crate) fn is_store_size(size: u64) -> bool
    ensures { result ≡ is_store_size size }
{
    size <= MOST && (size == 0 || 1 < blocks(size))
}

/// A store.
#[tactic(auto, using(crate::proofs::SmallLaws::store_plan_small))]
pub(crate) fn snapshot(
    alloc: Global,
    state: &State,
    name: &[u8],
    size: u64,
) -> Result<(State, Reply), NoMemory>
    requires { IsSmall state.now }
    ensures state { IfOk result (λ r. r.0
        ≡ after_of state.now
        (if_installing state.now.phase (snapshot_row state.now name.now size))) }
    ensures reply { IfOk result
        (λ r. r.1 ≡ (if_installing state.now.phase (snapshot_row state.now name.now size)).reply) }
{
    let Some((source, plan)) = installing(state) else {
        return refuse(alloc, state, Refusal::NotInstalling);
    };
    if plan.apart {
        return refuse(alloc, state, Refusal::InPlace);
    }
    let Some(base) = base_named(name, source) else {
        return refuse(alloc, state, Refusal::BadName);
    };
    if !is_store_size(size) {
        return refuse(alloc, state, Refusal::BadSize);
    }
    if is_physical(state.physical.as_slice(), base.text()) {
        return refuse(alloc, state, Refusal::Physical);
    }
    let Some(entry) = entry_named(plan.entries.as_slice(), base.text()) else {
        return refuse(alloc, state, Refusal::Unknown);
    };
    if entry.store.is_some() {
        return refuse(alloc, state, Refusal::HasStore);
    }
    let change = Change::Store(size);
    let next = at_entry(alloc, plan.entries.as_slice(), base.text(), &change)?;
    if_room(alloc, state, source, with_entries(plan, next))
}
