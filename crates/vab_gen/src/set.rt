//! Sets that are made from a number.

ghost use Rattle.std.specs.Prelude.{◌≡◌, ◌≤◌, IsTrue, IfOk};
ghost use Rattle.vab_names.specs.Names.{is_base};
ghost use Rattle.vab_set.specs.Spelling.{IsSet};
ghost use Rattle.vab_gen.specs.Sets.{base_names, fresh_set, next_set, HasRoom};

use crate::draws::Draws;
use crate::image::{fresh_image, next_image};
use std::alloc::Global;
use vab_bytes::{Listing, Name36};
use vab_names::parse_base;
use vab_set::{NoMemory, Set};

// The base name with this text.
fn base_name(text: &[u8]) -> Name36
    requires { IsTrue (is_base text.now) }
    ensures { result ≡ text.now }
{
    match parse_base(text) {
        Some(name) => name,
        None => unreachable!(),
    }
}

// The names of a set's images.
fn base_names() -> [Name36; 4]
    ensures { result ≡ base_names }
{
    [
        base_name(b"odm"),
        base_name(b"product"),
        base_name(b"system"),
        base_name(b"vendor"),
    ]
}

/// The set that a seed makes, with `scale` times as many blocks: the images `odm`, `product`,
/// `system` and `vendor`. An image's first number picks 4 to 19 blocks, and the 8 bytes of each
/// further one, the low byte first, fill a block 512 times. No image has a store.
pub fn set_scaled(alloc: Global, seed: u64, scale: u64) -> Result<Set<'static>, NoMemory>
    requires { scale ≤ 64 }
    ensures exact { IfOk result (λ s. s ≡ fresh_set scale seed) }
    // It can be written, and a set can be made after it.
    ensures set { IfOk result IsSet }
    ensures room { IfOk result HasRoom }
{
    let mut draws = Draws::from_seed(seed);
    let mut images = Vec::new(alloc);
    for name in &base_names() {
        let image = fresh_image(alloc, &mut draws, scale, name)?;
        images.push(image)?;
    }
    Ok(Listing::from_vec(images))
}

/// The set that a seed makes.
pub fn set_from(alloc: Global, seed: u64) -> Result<Set<'static>, NoMemory>
    ensures exact { IfOk result (λ s. s ≡ fresh_set 1 seed) }
    // It can be written, and a set can be made after it.
    ensures set { IfOk result IsSet }
    ensures room { IfOk result HasRoom }
{
    set_scaled(alloc, seed, 1)
}

/// The set that a seed makes after an old one, with `scale` times as much growth. An image's first
/// number picks how many blocks it grows by, 0 to 3 before the scale; each further one is of a
/// block: the old image's where the number is below 2^63 and the old image has it, or else filled
/// with the number. An image has the blocks of its size; behind its bytes they have zeros. No image
/// has a store.
pub fn next_scaled(
    alloc: Global,
    seed: u64,
    scale: u64,
    set: &Set,
) -> Result<Set<'static>, NoMemory>
    requires scale { scale ≤ 64 }
    requires room { HasRoom set.now }
    ensures exact { IfOk result (λ s. s ≡ next_set scale seed set.now) }
    // It can be written where the old one can.
    ensures set { IsSet set.now → IfOk result IsSet }
{
    let mut draws = Draws::from_seed(seed);
    let mut images = Vec::new(alloc);
    for old in set.as_slice() {
        let image = next_image(alloc, &mut draws, scale, old)?;
        images.push(image)?;
    }
    Ok(Listing::from_vec(images))
}

/// The set that a seed makes after an old one.
pub fn next_set(alloc: Global, seed: u64, set: &Set) -> Result<Set<'static>, NoMemory>
    requires { HasRoom set.now }
    ensures exact { IfOk result (λ s. s ≡ next_set 1 seed set.now) }
    // It can be written where the old one can.
    ensures set { IsSet set.now → IfOk result IsSet }
{
    next_scaled(alloc, seed, 1, set)
}
