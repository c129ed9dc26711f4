//! One image.

ghost use Rattle.std.specs.Prelude.{◌≡◌, ◌≤◌, ◌/◌, ◌%◌, ◌^◌, ◌<◌, OnOk, IfOk};
ghost use Rattle.vab_gen.specs.Images.{fresh_image, fresh_end, next_image, next_end, picked};

use crate::bytes::{filled_blocks, next_blocks};
use crate::draws::Draws;
use std::alloc::Global;
use vab_bytes::Name36;
use vab_set::{Content, NoMemory, SetImage};
use vab_space::{BLOCK, blocks};

// The fewest blocks of a fresh image, before the scale.
const LEAST: u64 = 4;

// A number below another one, by the high bits of one that was drawn.
fn picked(below: u64, number: u64) -> u64
    requires { 0 < below }
    ensures { result ≡ picked below number }
{
    (number >> 33) % below
}

/// An image of this name that is of its numbers alone.
#[tactic(auto, unfolding(crate::specs::Images::fresh_image, crate::specs::Images::fresh_end))]
pub fn fresh_image(
    alloc: Global,
    draws: &mut Draws,
    scale: u64,
    name: &Name36,
) -> Result<SetImage<'static>, NoMemory>
    requires { scale ≤ 64 }
    ensures image { IfOk result (λ i. i ≡ fresh_image scale draws.old.last name.now) }
    ensures draws { OnOk result (draws.new.last ≡ fresh_end scale draws.old.last) }
{
    let count = scale * (LEAST + picked(16, draws.draw()));
    let bytes = filled_blocks(alloc, draws, count)?;
    Ok(SetImage {
        name: *name,
        size: BLOCK as u64 * count,
        store: 0,
        bytes: Content::from_vec(bytes),
    })
}

/// The image that comes after an old one.
#[tactic(auto, unfolding(crate::specs::Images::next_image, crate::specs::Images::next_end))]
pub fn next_image(
    alloc: Global,
    draws: &mut Draws,
    scale: u64,
    old: &SetImage,
) -> Result<SetImage<'static>, NoMemory>
    requires scale { scale ≤ 64 }
    requires room { old.now.size ≤ 2 ^ 39 }
    ensures image { IfOk result (λ i. i ≡ next_image scale draws.old.last old.now) }
    ensures draws { OnOk result (draws.new.last ≡ next_end scale draws.old.last old.now) }
{
    let count = blocks(old.size) + scale * picked(4, draws.draw());
    let bytes = next_blocks(alloc, draws, old, count)?;
    Ok(SetImage {
        name: old.name,
        size: BLOCK as u64 * count,
        store: 0,
        bytes: Content::from_vec(bytes),
    })
}
