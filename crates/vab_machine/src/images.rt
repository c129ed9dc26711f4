//! The image of a name, as it is printed or as its digest, with what is written over it.

ghost use Rattle.std.specs.Prelude.{◌≡◌, ◌≤◌, length, IfOk, MatchOption, MatchResult};
ghost use Rattle.std.specs.Prelude.{option_copied, None, Some};
ghost use Rattle.vab_model.specs.State.{image_named};
ghost use Rattle.vab_model.specs.Commands.{Print};
ghost use Rattle.vab_model.specs.Commands.{Digest as DigestOf};
ghost use Rattle.vab_model.specs.Effects.{Effect, Image_is, Refused_by, found_in, found_under};
ghost use Rattle.vab_model.specs.Effects.{found_of, print_effect, digest_effect, after_of};
ghost use Rattle.vab_model.specs.Over.{read_over};
ghost use Rattle.vab_model.specs.Physical.{physical_named, image_held, image_among};
ghost use Rattle.vab_model.specs.Machine.{machine_effect};
ghost use Rattle.vab_machine.specs.Views.{image_of};
ghost use Rattle.vab_model.specs.declared.state.State.{State as StateOf};

use crate::physical::{held_by, physical_named};
use sha2::{Digest, Sha256};
use std::alloc::Global;
use vab_bytes::{Listing, Name36};
use vab_model::{Image, NoMemory, Overlay, Physical, Refusal, Reply, State};
use vab_names::{base_of, is_full};

/// An image whose bytes stand elsewhere: among a slot's images, or in a physical partition.
#[derive(Clone, Copy)]
pub(crate) struct ImageView<'a> {
    pub(crate) name: Name36,
    pub(crate) group: Option<Name36>,
    pub(crate) bytes: &'a [u8],
}

// The same image.
fn view<'a>(image: &'a Image) -> ImageView<'a>
    ensures { image_of result ≡ image.now }
{
    ImageView {
        name: image.name,
        group: image.group,
        bytes: image.bytes.as_slice(),
    }
}

/// The image of this base name.
pub(crate) fn image_named<'a>(images: &'a [Image], base: &[u8]) -> Option<&'a Image>
    ensures { option_copied result ≡ image_named base.now images.now }
{
    for image in images {
        if image.name.text() == base {
            return Some(image);
        }
    }
    None
}

// What a slot's physical partition of this base name holds, as an image; any slot but 0 is b.
fn image_held<'a>(slot: usize, physical: &'a [Physical], base: &[u8]) -> Option<ImageView<'a>>
    ensures { MatchOption result
        (image_held slot (physical_named base.now physical.now) ≡ None)
        (λ v. image_held slot (physical_named base.now physical.now) ≡ Some (image_of v)) }
{
    let partition = physical_named(physical, base)?;
    match held_by(slot, partition) {
        None => None,
        Some(bytes) => Some(ImageView {
            name: partition.name,
            group: None,
            bytes: bytes.as_slice(),
        }),
    }
}

// The image of this base name among a slot's physical partitions and its others.
fn image_among<'a>(
    slot: usize,
    base: &[u8],
    physical: &'a [Physical],
    images: &'a [Image],
) -> Option<ImageView<'a>>
    ensures { MatchOption result
        (image_among slot base.now physical.now images.now ≡ None)
        (λ v. image_among slot base.now physical.now images.now ≡ Some (image_of v)) }
{
    if let Some(held) = image_held(slot, physical, base) {
        return Some(held);
    }
    match image_named(images, base) {
        None => None,
        Some(image) => Some(view(image)),
    }
}

// The image of a name with a slot's suffix, in that slot, which has these images.
fn find_in<'a>(
    slot: usize,
    physical: &'a [Physical],
    images: &'a Option<Listing<Image>>,
    name: &[u8],
) -> Result<ImageView<'a>, Refusal>
    requires { 2 ≤ length name.now }
    ensures { MatchResult result
        (λ v. found_in slot physical.now images.now name.now ≡ Image_is (image_of v))
        (λ refusal. found_in slot physical.now images.now name.now ≡ Refused_by refusal) }
{
    let Some(images) = images else {
        return Err(Refusal::NoImages);
    };
    match image_among(slot, base_of(name), physical, images.as_slice()) {
        None => Err(Refusal::Unknown),
        Some(image) => Ok(image),
    }
}

// The image of a name with a slot's suffix.
#[tactic(auto, using(vab_model::proofs::Names::full_long))]
fn find<'a>(state: &'a State, name: &[u8]) -> Result<ImageView<'a>, Refusal>
    ensures { MatchResult result
        (λ v. found_under state.now name.now ≡ Image_is (image_of v))
        (λ refusal. found_under state.now name.now ≡ Refused_by refusal) }
{
    if is_full(name, 0) {
        find_in(0, state.physical.as_slice(), &state.a, name)
    } else if is_full(name, 1) {
        find_in(1, state.physical.as_slice(), &state.b, name)
    } else {
        Err(Refusal::BadName)
    }
}

fn print(state: &State, name: &[u8]) -> Reply
    ensures { let told : Effect StateOf = print_effect name.now (found_of state.now name.now) in
        result ≡ told.reply }
{
    match find(state, name) {
        Err(refusal) => Reply::Refused(refusal),
        Ok(_) => match Name36::parse(name) {
            Ok(name) => Reply::Bytes(name),
            Err(_) => unreachable!(),
        },
    }
}

// The bytes of an image as it is read: what its overlay reads as, where it has one.
fn bytes_over<'a>(overlay: &'a Option<Overlay>, image: &ImageView<'a>) -> &'a [u8]
    ensures { result.now ≡ (read_over overlay.now (image_of image.now)).bytes }
{
    if let Some(overlay) = overlay {
        if overlay.name.text() == image.name.text() {
            return overlay.bytes.as_slice();
        }
    }
    image.bytes
}

fn digest(state: &State, name: &[u8]) -> Reply
    ensures { let told : Effect StateOf = digest_effect (found_of state.now name.now) in
        result ≡ told.reply }
{
    match find(state, name) {
        Err(refusal) => Reply::Refused(refusal),
        Ok(image) => Reply::Digest(Sha256::digest(bytes_over(&state.overlay, &image))),
    }
}

#[tactic(auto, unfolding(vab_model::specs::Machine::machine_effect))]
pub(crate) fn printed(alloc: Global, state: &State, name: &[u8]) -> Result<(State, Reply), NoMemory>
    ensures state { IfOk result (λ r. r.0
        ≡ after_of state.now (machine_effect state.now None (Print name.now))) }
    ensures reply { IfOk result (λ r. r.1
        ≡ (machine_effect state.now None (Print name.now)).reply) }
{
    Ok((state.copy(alloc)?, print(state, name)))
}

#[tactic(auto, unfolding(vab_model::specs::Machine::machine_effect))]
pub(crate) fn digested(
    alloc: Global,
    state: &State,
    name: &[u8],
) -> Result<(State, Reply), NoMemory>
    ensures state { IfOk result (λ r. r.0
        ≡ after_of state.now (machine_effect state.now None (DigestOf name.now))) }
    ensures reply { IfOk result (λ r. r.1
        ≡ (machine_effect state.now None (DigestOf name.now)).reply) }
{
    Ok((state.copy(alloc)?, digest(state, name)))
}
