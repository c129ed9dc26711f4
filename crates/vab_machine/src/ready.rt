//! The end of an installation.

ghost use Rattle.std.specs.Prelude.{◌≡◌, ◌<◌, ◌^◌, if◌then◌else◌, None, IfOk, map, is_some};
ghost use Rattle.vab_model.specs.Effects.{after_of};
ghost use Rattle.vab_model.specs.Physical.{held_by};
ghost use Rattle.vab_model.specs.Machine.{lesser, declared_name, least_declared, least_blank};
ghost use Rattle.vab_model.specs.Machine.{least_missing, exceptions_of, exceptions_in};
ghost use Rattle.vab_model.specs.Machine.{final_bytes, final_image, finished, finish_row};
ghost use Rattle.vab_model.specs.Machine.{if_installing};
ghost use Rattle.vab_machine.specs.Small.{IsSmall, IsSmallPlan};

use crate::answer::refuse;
use crate::change::copy_bytes;
use crate::parts::{bytes_named, images_of, installing, other_slot};
use crate::physical::held_by;
use std::alloc::Global;
use std::cmp::Ordering;
use vab_bytes::{Bytes, Listing, Name36};
use vab_model::{
    Image, NoMemory, Phase, Physical, Plan, PlanEntry, PlanImage, Refusal, Reply, State,
};

// The lesser of two names, byte by byte.
fn lesser(least: Option<Name36>, name: Name36) -> Option<Name36>
    ensures { result ≡ lesser least name }
{
    match least {
        None => Some(name),
        Some(least) => match name.text().cmp(least.text()) {
            Ordering::Less => Some(name),
            Ordering::Equal => Some(least),
            Ordering::Greater => Some(least),
        },
    }
}

// The lesser of this name and the entry's, where that is declared and not written.
fn declared(least: Option<Name36>, entry: &PlanEntry) -> Option<Name36>
    ensures { result ≡ declared_name least (entry.now).name (entry.now).image }
{
    match entry.image {
        PlanImage::Kept => least,
        PlanImage::Declared => lesser(least, entry.name),
        PlanImage::Written(_, _) => least,
    }
}

// The least of this name and those of the entries that are declared and not written.
fn least_declared(name: Option<Name36>, plan: &[PlanEntry]) -> Option<Name36>
    ensures { result ≡ least_declared name plan.now }
{
    let mut least = name;
    for entry in plan {
        least = declared(least, entry);
    }
    least
}

// The lesser of this name and the partition's, where that of the slot holds nothing that counts.
fn blank(slot: usize, least: Option<Name36>, partition: &Physical) -> Option<Name36>
    ensures { result
        ≡ (if is_some (held_by slot partition.now) then least
        else lesser least (partition.now).name) }
{
    if held_by(slot, partition).is_some() {
        least
    } else {
        lesser(least, partition.name)
    }
}

// The least name of a physical partition of this slot that holds nothing that counts.
fn least_blank(slot: usize, physical: &[Physical]) -> Option<Name36>
    ensures { result ≡ least_blank slot None physical.now }
{
    let mut least = None;
    for partition in physical {
        least = blank(slot, least, partition);
    }
    least
}

// The least name of a partition of the target that isn't written.
fn least_missing(state: &State, source: usize, plan: &Plan) -> Option<Name36>
    ensures { result ≡ least_missing state.now source plan.now }
{
    let name = least_blank(other_slot(source), state.physical.as_slice());
    least_declared(name, plan.entries.as_slice())
}

fn exceptions_of(image: &PlanImage) -> u64
    ensures { result ≡ exceptions_of image.now }
{
    match image {
        PlanImage::Kept => 0,
        PlanImage::Declared => 0,
        PlanImage::Written(_, exceptions) => *exceptions,
    }
}

// The exceptions of all stores.
fn exceptions_in(plan: &[PlanEntry]) -> u64
    requires { exceptions_in plan.now < 2 ^ 63 }
    ensures { result ≡ exceptions_in plan.now }
{
    let mut count = 0;
    for entry in plan {
        count += exceptions_of(&entry.image);
    }
    count
}

// The bytes that an image has in the end.
fn final_bytes(alloc: Global, source: &[Image], entry: &PlanEntry) -> Result<Bytes, NoMemory>
    ensures { IfOk result
        (λ x. x ≡ final_bytes source.now (entry.now).name (entry.now).image) }
{
    match &entry.image {
        PlanImage::Kept => copy_bytes(alloc, bytes_named(source, entry.name.text())),
        PlanImage::Declared => copy_bytes(alloc, &[]),
        PlanImage::Written(bytes, _) => copy_bytes(alloc, bytes.as_slice()),
    }
}

fn final_image(alloc: Global, source: &[Image], entry: &PlanEntry) -> Result<Image, NoMemory>
    ensures { IfOk result (λ x. x ≡ final_image source.now entry.now) }
{
    Ok(Image {
        name: entry.name,
        group: entry.group,
        bytes: final_bytes(alloc, source, entry)?,
    })
}

fn final_images(
    alloc: Global,
    source: &[Image],
    plan: &[PlanEntry],
) -> Result<Listing<Image>, NoMemory>
    ensures { IfOk result (λ x. x ≡ map (final_image source.now) plan.now) }
{
    let mut images = Vec::new(alloc);
    for entry in plan {
        images.push(final_image(alloc, source, entry)?)?;
    }
    Ok(Listing::from_vec(images))
}

// The state where the target has the plan's images.
#[tactic(auto, using(crate::proofs::Bounds::exceptions_fit))]
fn finished(alloc: Global, state: &State, source: usize, plan: &Plan) -> Result<State, NoMemory>
    requires { IsSmallPlan plan.now.entries }
    ensures { IfOk result (λ s. s ≡ finished state.now source plan.now) }
{
    let entries = plan.entries.as_slice();
    let images = final_images(alloc, images_of(state, source), entries)?;
    let phase = Phase::Staged(source, exceptions_in(entries));
    let copy = state.copy(alloc)?;
    if other_slot(source) == 0 {
        Ok(State {
            a: Some(images),
            phase,
            ..copy
        })
    } else {
        Ok(State {
            b: Some(images),
            phase,
            ..copy
        })
    }
}

/// The end of an installation.
pub(crate) fn finish(alloc: Global, state: &State) -> Result<(State, Reply), NoMemory>
    requires { IsSmall state.now }
    ensures state { IfOk result
        (λ r. r.0 ≡ after_of state.now (if_installing state.now.phase (finish_row state.now))) }
    ensures reply { IfOk result
        (λ r. r.1 ≡ (if_installing state.now.phase (finish_row state.now)).reply) }
{
    let Some((source, plan)) = installing(state) else {
        return refuse(alloc, state, Refusal::NotInstalling);
    };
    match least_missing(state, source, plan) {
        Some(name) => refuse(alloc, state, Refusal::Incomplete(name)),
        None => Ok((finished(alloc, state, source, plan)?, Reply::Done)),
    }
}
