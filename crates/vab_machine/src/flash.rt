//! Staged bytes that become the image of a partition.

ghost use Rattle.std.specs.Prelude.{◌≡◌, ◌≤◌, ◌^◌, IfOk, Some};
ghost use Rattle.std.specs.Option.{option_copied};
ghost use Rattle.vab_model.specs.Effects.{after_of};
ghost use Rattle.vab_model.specs.Machine.{with_image, if_stored, in_place, flash_staged};
ghost use Rattle.vab_model.specs.Machine.{flash_unwritten, flash_entry, flash_row, if_installing};
ghost use Rattle.vab_model.specs.Machine.{physical_entry, flash_physical};
ghost use Rattle.vab_model.specs.Physical.{held_by};
ghost use Rattle.vab_model.specs.Plans.{other_slot};
ghost use Rattle.vab_machine.specs.Places.{placed};
ghost use Rattle.vab_machine.specs.Small.{IsSmall, IsSmallEntry, IsSmallPlan};

use crate::answer::{planned, refuse};
use crate::change::{Change, at_entry, with_entries};
use crate::parts::{
    base_named, bytes_named, entry_named, images_of, installing, is_written, other_slot,
};
use crate::physical::{held_by, physical_named, with_held};
use crate::staged::{differences, filled};
use std::alloc::Global;
use vab_bytes::Bytes;
use vab_model::{NoMemory, Physical, Plan, PlanEntry, PlanImage, Refusal, Reply, State, is_sparse};
use vab_space::{Chunk, need_at};

// An update that is installed.
#[derive(Clone, Copy)]
struct Update<'a> {
    state: &'a State,
    source: usize,
    plan: &'a Plan,
}

/// Where an image goes.
#[derive(Clone, Copy)]
pub(crate) enum Place {
    /// Into the blocks of its partition.
    Blocks,
    /// Into a store of so many blocks, whose chunks have this size.
    Store(u64, Chunk),
    /// Into the target's physical partition, behind `super`.
    Behind,
}

// The plan with this image of an entry, whose store has so many exceptions.
fn with_image(
    alloc: Global,
    plan: &Plan,
    entry: &PlanEntry,
    image: &[u8],
    count: u64,
) -> Result<Plan, NoMemory>
    requires { IsSmallPlan plan.now.entries }
    ensures { IfOk result (λ p. p ≡ with_image plan.now entry.now image.now count) }
{
    let change = Change::Write(image, count);
    let entries = plan.entries.as_slice();
    let next = at_entry(alloc, entries, entry.name.text(), &change)?;
    Ok(with_entries(plan, next))
}

// This image, of which so many chunks differ, where the store has room for them.
#[tactic(auto, using(crate::proofs::Blocks::need_fits))]
fn if_stored(
    alloc: Global,
    update: &Update,
    entry: &PlanEntry,
    chunk: Chunk,
    store: u64,
    image: &[u8],
    count: u64,
) -> Result<(State, Reply), NoMemory>
    requires plan { IsSmallPlan (update.now).plan.now.entries }
    requires count { count ≤ 2 ^ 28 }
    ensures state { IfOk result (λ r. r.0
        ≡ after_of (update.now).state.now
        (if_stored (update.now).state.now (update.now).source (update.now).plan.now entry.now chunk
        store image.now count)) }
    ensures reply { IfOk result (λ r. r.1
        ≡ (if_stored (update.now).state.now (update.now).source (update.now).plan.now entry.now
        chunk store image.now count).reply) }
{
    let need = need_at(count, chunk);
    if need > store {
        return refuse(alloc, update.state, Refusal::StoreFull(need, store));
    }
    let next = with_image(alloc, update.plan, entry, image, count)?;
    planned(alloc, update.state, update.source, next)
}

// An image in the blocks of its partition.
fn in_place(
    alloc: Global,
    update: &Update,
    entry: &PlanEntry,
    image: &[u8],
) -> Result<(State, Reply), NoMemory>
    requires { IsSmallPlan (update.now).plan.now.entries }
    ensures state { IfOk result (λ r. r.0
        ≡ after_of (update.now).state.now
        (in_place (update.now).state.now (update.now).source (update.now).plan.now entry.now
        image.now)) }
    ensures reply { IfOk result (λ r. r.1
        ≡ (in_place (update.now).state.now (update.now).source (update.now).plan.now entry.now
        image.now).reply) }
{
    let next = with_image(alloc, update.plan, entry, image, 0)?;
    planned(alloc, update.state, update.source, next)
}

// An image where it goes.
fn placed(
    alloc: Global,
    update: &Update,
    entry: &PlanEntry,
    place: Place,
    image: &[u8],
) -> Result<(State, Reply), NoMemory>
    requires plan { IsSmallPlan (update.now).plan.now.entries }
    requires entry { IsSmallEntry entry.now }
    ensures state { IfOk result (λ r. r.0
        ≡ after_of (update.now).state.now
        (placed (update.now).state.now (update.now).source (update.now).plan.now entry.now place
        image.now)) }
    ensures reply { IfOk result (λ r. r.1
        ≡ (placed (update.now).state.now (update.now).source (update.now).plan.now entry.now place
        image.now).reply) }
{
    match place {
        Place::Blocks => in_place(alloc, update, entry, image),
        Place::Store(store, chunk) => {
            let images = images_of(update.state, update.source);
            let source = bytes_named(images, entry.name.text());
            let count = differences(source, image, entry.blocks, chunk);
            if_stored(alloc, update, entry, chunk, store, image, count)
        }
        Place::Behind => {
            let target = other_slot(update.source);
            let next = with_held(alloc, update.state, target, entry.name.text(), image)?;
            Ok((next, Reply::Done))
        }
    }
}

// The staged bytes, if there are any.
fn flash_staged(
    alloc: Global,
    update: &Update,
    entry: &PlanEntry,
    place: Place,
    staged: Option<&[u8]>,
) -> Result<(State, Reply), NoMemory>
    requires plan { IsSmallPlan (update.now).plan.now.entries }
    requires entry { IsSmallEntry entry.now }
    ensures state { IfOk result (λ r. r.0
        ≡ after_of (update.now).state.now
        (flash_staged entry.now
        (placed (update.now).state.now (update.now).source (update.now).plan.now entry.now place)
        (option_copied staged.entry))) }
    ensures reply { IfOk result (λ r. r.1
        ≡ (flash_staged entry.now
        (placed (update.now).state.now (update.now).source (update.now).plan.now entry.now place)
        (option_copied staged.entry)).reply) }
{
    let Some(staged) = staged else {
        return refuse(alloc, update.state, Refusal::NothingStaged);
    };
    if is_sparse(staged) {
        return refuse(alloc, update.state, Refusal::Sparse);
    }
    let (long, size) = (staged.len() as u64, 4096 * entry.blocks);
    if long > size {
        return refuse(alloc, update.state, Refusal::TooLarge(long, size));
    }
    let image = filled(alloc, staged, entry.blocks)?;
    placed(alloc, update, entry, place, &image)
}

// The image of an entry that wasn't written.
fn flash_unwritten(
    alloc: Global,
    update: &Update,
    entry: &PlanEntry,
    place: Place,
    staged: Option<&[u8]>,
) -> Result<(State, Reply), NoMemory>
    requires plan { IsSmallPlan (update.now).plan.now.entries }
    requires entry { IsSmallEntry entry.now }
    ensures state { IfOk result (λ r. r.0
        ≡ after_of (update.now).state.now
        (flash_unwritten entry.now
        (placed (update.now).state.now (update.now).source (update.now).plan.now entry.now place)
        (option_copied staged.entry))) }
    ensures reply { IfOk result (λ r. r.1
        ≡ (flash_unwritten entry.now
        (placed (update.now).state.now (update.now).source (update.now).plan.now entry.now place)
        (option_copied staged.entry)).reply) }
{
    if is_written(&entry.image) {
        return refuse(alloc, update.state, Refusal::Written);
    }
    flash_staged(alloc, update, entry, place, staged)
}

// The image of an entry, in its store, or in place where it has none and the target stands apart.
fn flash_entry(
    alloc: Global,
    update: &Update,
    entry: &PlanEntry,
    staged: Option<&[u8]>,
    chunk: Chunk,
) -> Result<(State, Reply), NoMemory>
    requires plan { IsSmallPlan (update.now).plan.now.entries }
    requires entry { IsSmallEntry entry.now }
    ensures state { IfOk result (λ r. r.0
        ≡ after_of (update.now).state.now
        (flash_entry (update.now).state.now (update.now).source (update.now).plan.now
        (option_copied staged.entry) entry.now chunk (entry.now).store)) }
    ensures reply { IfOk result (λ r. r.1
        ≡ (flash_entry (update.now).state.now (update.now).source (update.now).plan.now
        (option_copied staged.entry) entry.now chunk (entry.now).store).reply) }
{
    let place = match entry.store {
        Some(store) => Place::Store(store, chunk),
        None => {
            if !update.plan.apart {
                return refuse(alloc, update.state, Refusal::NoStore);
            }
            Place::Blocks
        }
    };
    flash_unwritten(alloc, update, entry, place, staged)
}

// A physical partition as an entry, which is written or not in this slot.
fn physical_entry(alloc: Global, slot: usize, partition: &Physical) -> PlanEntry
    ensures { result ≡ physical_entry partition.now (held_by slot partition.now) }
{
    let image = if held_by(slot, partition).is_some() {
        PlanImage::Written(Bytes::from_vec(Vec::new(alloc)), 0)
    } else {
        PlanImage::Declared
    };
    PlanEntry {
        name: partition.name,
        group: None,
        blocks: partition.blocks,
        store: None,
        image,
    }
}

// The image of a physical partition of the target.
#[tactic(auto, using(crate::proofs::SmallLaws::physical_entry_small))]
fn flash_physical(
    alloc: Global,
    update: &Update,
    partition: &Physical,
    staged: Option<&[u8]>,
) -> Result<(State, Reply), NoMemory>
    requires plan { IsSmallPlan (update.now).plan.now.entries }
    requires blocks { (partition.now).blocks ≤ 2 ^ 28 }
    ensures state { IfOk result (λ r. r.0
        ≡ after_of (update.now).state.now
        (flash_physical (update.now).state.now (option_copied staged.entry)
        (other_slot (update.now).source) (Some partition.now))) }
    ensures reply { IfOk result (λ r. r.1
        ≡ (flash_physical (update.now).state.now (option_copied staged.entry)
        (other_slot (update.now).source) (Some partition.now)).reply) }
{
    let entry = physical_entry(alloc, other_slot(update.source), partition);
    flash_unwritten(alloc, update, &entry, Place::Behind, staged)
}

/// The staged bytes become the image of a partition, in a store with chunks of this size, or in
/// place where the target stands apart, or what the target's physical partition holds.
#[tactic(auto, using(crate::proofs::SmallLaws::physical_small))]
pub(crate) fn flash(
    alloc: Global,
    state: &State,
    staged: Option<&[u8]>,
    name: &[u8],
    chunk: Chunk,
) -> Result<(State, Reply), NoMemory>
    requires { IsSmall state.now }
    ensures state { IfOk result (λ r. r.0
        ≡ after_of state.now
        (if_installing state.now.phase
        (flash_row state.now (option_copied staged.entry) name.now chunk))) }
    ensures reply { IfOk result (λ r. r.1
        ≡ (if_installing state.now.phase
        (flash_row state.now (option_copied staged.entry) name.now chunk)).reply) }
{
    let Some((source, plan)) = installing(state) else {
        return refuse(alloc, state, Refusal::NotInstalling);
    };
    let Some(base) = base_named(name, source) else {
        return refuse(alloc, state, Refusal::BadName);
    };
    let update = Update {
        state,
        source,
        plan,
    };
    if let Some(partition) = physical_named(state.physical.as_slice(), base.text()) {
        return flash_physical(alloc, &update, partition, staged);
    }
    let Some(entry) = entry_named(plan.entries.as_slice(), base.text()) else {
        return refuse(alloc, state, Refusal::Unknown);
    };
    flash_entry(alloc, &update, entry, staged, chunk)
}
