//! Whether all that is counted of a state are numbers of 64 bits.

ghost use Rattle.std.specs.Prelude.{◌↔◌, ◌≤◌, ◌^◌, IsTrue, length};
ghost use Rattle.vab_machine.specs.Small.{AreSmallImages, IsSmallSlot, IsSmallImage, IsSmallEntry};
ghost use Rattle.vab_machine.specs.Small.{IsSmallPlan, IsSmallPhase, IsSmallOverlay};
ghost use Rattle.vab_machine.specs.Small.{AreSmallPhysical, IsSmall};

use vab_bytes::Listing;
use vab_model::{Image, Overlay, Phase, Physical, PlanEntry, PlanImage, State};
use vab_names::MAX_PARTITIONS;

/// The most blocks of a store, the most exceptions, and the most blocks written over a
/// partition.
const MOST_BLOCKS: u64 = 1 << 55;

fn is_small_bytes(bytes: &[u8]) -> bool
    ensures { IsTrue result ↔ (length bytes.now ≤ 2 ^ 40) }
{
    bytes.len() <= 1 << 40
}

fn are_small_images(images: &[Image]) -> bool
    ensures { IsTrue result ↔ AreSmallImages images.now }
{
    images.len() <= MAX_PARTITIONS
        && images
            .iter()
            .all(|image| is_small_bytes(image.bytes.as_slice()))
}

fn is_small_slot(images: &Option<Listing<Image>>) -> bool
    ensures { IsTrue result ↔ IsSmallSlot images.now }
{
    match images {
        None => true,
        Some(images) => are_small_images(images.as_slice()),
    }
}

fn is_small_image(image: &PlanImage) -> bool
    ensures { IsTrue result ↔ IsSmallImage image.now }
{
    match image {
        PlanImage::Kept => true,
        PlanImage::Declared => true,
        PlanImage::Written(bytes, exceptions) => {
            is_small_bytes(bytes.as_slice()) && *exceptions <= MOST_BLOCKS
        }
    }
}

fn is_small_entry(entry: &PlanEntry) -> bool
    ensures { IsTrue result ↔ IsSmallEntry entry.now }
{
    entry.blocks <= 1 << 28
        && entry.store.unwrap_or(0) <= MOST_BLOCKS
        && is_small_image(&entry.image)
}

fn is_small_plan(plan: &[PlanEntry]) -> bool
    ensures { IsTrue result ↔ IsSmallPlan plan.now }
{
    plan.len() <= MAX_PARTITIONS && plan.iter().all(|entry| is_small_entry(entry))
}

fn is_small_phase(phase: &Phase) -> bool
    ensures { IsTrue result ↔ IsSmallPhase phase.now }
{
    match phase {
        Phase::Idle => true,
        Phase::Installing(_, plan) => is_small_plan(plan.entries.as_slice()),
        Phase::Staged(_, _) => true,
        Phase::Merging(_, _) => true,
    }
}

fn is_small_overlay(overlay: &Option<Overlay>) -> bool
    ensures { IsTrue result ↔ IsSmallOverlay overlay.now }
{
    match overlay {
        None => true,
        Some(overlay) => {
            overlay.blocks.len() as u64 <= MOST_BLOCKS
                && overlay.store <= MOST_BLOCKS
                && is_small_bytes(overlay.bytes.as_slice())
        }
    }
}

fn are_small_physical(physical: &[Physical]) -> bool
    ensures { IsTrue result ↔ AreSmallPhysical physical.now }
{
    physical.len() <= MAX_PARTITIONS && physical.iter().all(|partition| partition.blocks <= 1 << 28)
}

/// Whether a state is small enough for `step`, as the states of devices are: at most 64 images of
/// 2^40 bytes each in a slot, at most 64 physical partitions of 2^28 blocks each, a plan of 64
/// partitions of 2^28 blocks each, stores of 2^55 blocks, and an overlay of 2^40 bytes with 2^55
/// blocks written.
pub fn is_small(state: &State) -> bool
    ensures { IsTrue result ↔ IsSmall state.now }
{
    is_small_slot(&state.a)
        && is_small_slot(&state.b)
        && are_small_physical(state.physical.as_slice())
        && is_small_phase(&state.phase)
        && is_small_overlay(&state.overlay)
}
