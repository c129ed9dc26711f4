//! An overlay of a partition of the current slot: it begins, a block is written over it, it is
//! dropped.

ghost use Rattle.std.specs.Prelude.{◌≡◌, ◌≤◌, ◌<◌, ◌^◌, length, IfOk, Some};
ghost use Rattle.std.specs.Option.{option_copied};
ghost use Rattle.vab_model.specs.Effects.{after_of};
ghost use Rattle.vab_model.specs.Overlay.{used_over, overlay_image, overlay_row, with_overlay};
ghost use Rattle.vab_model.specs.Overlay.{if_room, write_row, discard_row};
ghost use Rattle.vab_model.specs.Plans.{images_of};
ghost use Rattle.vab_machine.specs.Begun.{begun_over};
ghost use Rattle.vab_machine.specs.Small.{IsSmall};

use crate::answer::refuse;
use crate::change::{copy_bytes, store_size};
use crate::count::blocks_in;
use crate::edit::is_store_size;
use crate::images::image_named;
use crate::over::written_over;
use crate::parts::{a_or_b, images_of};
use crate::physical::is_physical;
use std::alloc::Global;
use vab_bytes::Listing;
use vab_model::{Image, NoMemory, Overlay, Phase, Refusal, Reply, State};
use vab_names::{base_of, is_full};
use vab_space::{need, used};

// The state with this overlay, or with none.
fn with_overlay(
    alloc: Global,
    state: &State,
    overlay: Option<Overlay>,
) -> Result<(State, Reply), NoMemory>
    ensures state { IfOk result (λ r. r.0 ≡ with_overlay state.now overlay) }
    ensures reply { IfOk result (λ r. r.1 ≡ Reply.Done) }
{
    let next = State {
        overlay,
        ..state.copy(alloc)?
    };
    Ok((next, Reply::Done))
}

// Blocks of these images, and those of a store over one of them.
fn used_over(alloc: Global, images: &[Image], store: u64) -> Result<u64, NoMemory>
    requires { used_over images.now store < 2 ^ 63 }
    ensures { IfOk result (λ n. n ≡ used_over images.now store) }
{
    let sizes: Vec<u64> = images
        .iter()
        .map(|image| blocks_in(image.bytes.as_slice()))
        .collect(alloc)?;
    Ok(used(&sizes, &[]) + store)
}

// An overlay of this image of the current slot, where there is room for its store.
#[tactic(auto, using(crate::proofs::Bounds::overlay_fits))]
fn overlay_image(
    alloc: Global,
    state: &State,
    image: &Image,
    size: u64,
) -> Result<(State, Reply), NoMemory>
    requires { IsSmall state.now }
    ensures state { IfOk result (λ r. r.0
        ≡ after_of state.now
        (overlay_image state.now.cap (images_of state.now state.now.control.current) size
        (begun_over state.now) (Some image.now))) }
    ensures reply { IfOk result (λ r. r.1
        ≡ (overlay_image state.now.cap (images_of state.now state.now.control.current) size
        (begun_over state.now) (Some image.now)).reply) }
{
    let store = store_size(blocks_in(image.bytes.as_slice()), size);
    let used = used_over(alloc, images_of(state, state.control.current), store)?;
    if used > state.cap {
        return refuse(alloc, state, Refusal::NoRoom(used, state.cap));
    }
    let overlay = Overlay {
        name: image.name,
        store,
        blocks: Listing::from_vec(Vec::new(alloc)),
        bytes: copy_bytes(alloc, image.bytes.as_slice())?,
    };
    with_overlay(alloc, state, Some(overlay))
}

/// An overlay of the current slot's image of a whole name, where there is no update and no overlay.
#[tactic(auto, using(crate::proofs::SideLaws::full_side, vab_model::proofs::Names::full_long))]
pub(crate) fn overlay(
    alloc: Global,
    state: &State,
    name: &[u8],
    size: u64,
) -> Result<(State, Reply), NoMemory>
    requires { IsSmall state.now }
    ensures state { IfOk result
        (λ r. r.0 ≡ after_of state.now (overlay_row state.now name.now size)) }
    ensures reply { IfOk result (λ r. r.1 ≡ (overlay_row state.now name.now size).reply) }
{
    if state.overlay.is_some() {
        return refuse(alloc, state, Refusal::NotIdle);
    }
    let Phase::Idle = &state.phase else {
        return refuse(alloc, state, Refusal::NotIdle);
    };
    let current = state.control.current;
    if !is_full(name, a_or_b(current)) {
        return refuse(alloc, state, Refusal::BadName);
    }
    if !is_store_size(size) {
        return refuse(alloc, state, Refusal::BadSize);
    }
    let base = base_of(name);
    if is_physical(state.physical.as_slice(), base) {
        return refuse(alloc, state, Refusal::Physical);
    }
    match image_named(images_of(state, current), base) {
        None => refuse(alloc, state, Refusal::Unknown),
        Some(image) => overlay_image(alloc, state, image, size),
    }
}

// A block is written over the image, where the store has room for one exception more.
fn if_room(
    alloc: Global,
    state: &State,
    overlay: &Overlay,
    block: u64,
    bytes: &[u8],
) -> Result<(State, Reply), NoMemory>
    requires few { length (overlay.now).blocks ≤ 2 ^ 55 }
    requires low { block ≤ 2 ^ 28 }
    ensures state { IfOk result
        (λ r. r.0 ≡ after_of state.now (if_room state.now overlay.now block bytes.now)) }
    ensures reply { IfOk result
        (λ r. r.1 ≡ (if_room state.now overlay.now block bytes.now).reply) }
{
    let need = need(overlay.blocks.len() as u64 + 1);
    if need > overlay.store {
        return refuse(alloc, state, Refusal::StoreFull(need, overlay.store));
    }
    let next = written_over(alloc, overlay, block, bytes)?;
    with_overlay(alloc, state, Some(next))
}

/// The staged bytes are written over a block of the overlaid partition.
pub(crate) fn write(
    alloc: Global,
    state: &State,
    staged: Option<&[u8]>,
    block: u64,
) -> Result<(State, Reply), NoMemory>
    requires { IsSmall state.now }
    ensures state { IfOk result (λ r. r.0
        ≡ after_of state.now
        (write_row state.now (option_copied staged.entry) block state.now.overlay)) }
    ensures reply { IfOk result (λ r. r.1
        ≡ (write_row state.now (option_copied staged.entry) block state.now.overlay).reply) }
{
    let Some(overlay) = &state.overlay else {
        return refuse(alloc, state, Refusal::NotOverlaid);
    };
    let Some(bytes) = staged else {
        return refuse(alloc, state, Refusal::NothingStaged);
    };
    let long = bytes.len() as u64;
    if long != 4096 {
        return refuse(alloc, state, Refusal::BadLength(long));
    }
    let blocks = blocks_in(overlay.bytes.as_slice());
    if block >= blocks {
        return refuse(alloc, state, Refusal::BadBlock(block, blocks));
    }
    if_room(alloc, state, overlay, block, bytes)
}

/// Drops the overlay.
pub(crate) fn discard(alloc: Global, state: &State) -> Result<(State, Reply), NoMemory>
    ensures state { IfOk result
        (λ r. r.0 ≡ after_of state.now (discard_row state.now state.now.overlay)) }
    ensures reply { IfOk result (λ r. r.1 ≡ (discard_row state.now state.now.overlay).reply) }
{
    if state.overlay.is_some() {
        with_overlay(alloc, state, None)
    } else {
        refuse(alloc, state, Refusal::NotOverlaid)
    }
}
