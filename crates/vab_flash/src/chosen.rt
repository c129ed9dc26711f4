//! Which planned partition the staged bytes are for, and where they go.

ghost use Rattle.std.specs.Prelude.{◌≡◌, ◌<◌, ◌≤◌, ◌^◌, ℕ, List, length, Option, Some, IfOk, IfErr};
ghost use Rattle.std.specs.Prelude.{All};
ghost use Rattle.std.specs.Prelude.{option_map};
ghost use Rattle.std.specs.Option.{option_copied};
ghost use Rattle.vab_disk.specs.Disk.{Image};
ghost use Rattle.vab_space.specs.declared.Chunk.{Chunk};
ghost use Rattle.vab_model.specs.declared.state.PlanEntry.{PlanEntry};
ghost use Rattle.vab_model.specs.Commands.{Flash};
ghost use Rattle.vab_model.specs.Effects.{refuses};
ghost use Rattle.vab_device.specs.Mounted.{Mounted, mounted_on, entry_on};
ghost use Rattle.vab_device.specs.Flashed.{entry_effect};
ghost use Rattle.vab_device.specs.Updates.{effect_on};
ghost use Rattle.vab_flash.specs.Chosen.{IsFor, part_named, part_at};
ghost use Rattle.vab_flash.specs.Chosen.{destination_of, IsChosen};
ghost use Rattle.vab_flash.specs.Place.{place_of, HasPlace, plan_or, planned_at};

use vab_bytes::Listing;
use vab_device::{Device, Part, PartImage};
use vab_model::{Refusal, is_sparse};
use vab_names::{base_of, is_full};
use vab_space::BLOCK;

/// Where the image of a partition goes.
#[derive(Clone, Copy, Debug, PartialEq, Eq)]
pub enum Destination {
    /// Into its store, over its blocks.
    Store,
    /// Into its own blocks.
    Blocks,
}

/// The place of the first planned partition of a base name.
pub(crate) fn place_of(plan: &Listing<Part>, base: &[u8]) -> Option<usize>
    ensures { result ≡ place_of base.now plan.now }
{
    plan.as_slice().iter().position(|p| p.name.text() == base)
}

// The place in the plan of the partition that a name names, or why there is none.
fn find(device: &Device, name: &[u8]) -> Result<usize, Refusal>
    requires { device.now.mark.slot < 2 }
    ensures found { IfOk result (λ place. HasPlace device.now name.now place) }
    ensures refused { (image : Image) (staged : Option (List ℕ)) (k : Chunk) → IfErr result
        (λ f. effect_on (mounted_on device.now image) staged (Flash name.now k) ≡ refuses f) }
{
    match &device.plan {
        None => Err(Refusal::NotInstalling),
        Some(plan) => {
            if is_full(name, 1 - device.mark.slot) {
                match place_of(plan, base_of(name)) {
                    Some(place) => Ok(place),
                    None => Err(Refusal::Unknown),
                }
            } else {
                Err(Refusal::BadName)
            }
        }
    }
}

// Where the image of a partition goes: into its store, or, where the target stands apart and it has
// none, into its own blocks.
fn destination_of(entry: &Part, apart: bool) -> Option<Destination>
    ensures { result ≡ destination_of apart entry.now.store }
{
    match (&entry.store, apart) {
        (Some(_), _) => Some(Destination::Store),
        (None, true) => Some(Destination::Blocks),
        (None, false) => None,
    }
}

// Where the image of this planned partition goes, and the bytes for it, or why they can't become
// its image.
fn fit<'a>(
    entry: &Part,
    apart: bool,
    staged: Option<&'a [u8]>,
) -> Result<(Destination, &'a [u8]), Refusal>
    requires { length entry.now.map < 2 ^ 48 }
    ensures fits { IfOk result
        (λ r. IsFor apart entry.now r.0 (option_map (λ s. s.now) staged.entry) r.1.now) }
    ensures refused { (m : Mounted) (source : ℕ) (entries : List PlanEntry) (k : Chunk)
        (image : Image)
        → IfErr result
        (λ f. entry_effect m source (record { apart = apart; entries = entries }) k
        (option_map (λ s. s.now) staged.entry) (Some (entry_on image entry.now))
        ≡ refuses f) }
{
    let destination = match destination_of(entry, apart) {
        Some(destination) => destination,
        None => return Err(Refusal::NoStore),
    };
    if matches!(entry.image, PartImage::Written(..)) {
        return Err(Refusal::Written);
    }
    let bytes = match staged {
        Some(bytes) => bytes,
        None => return Err(Refusal::NothingStaged),
    };
    if is_sparse(bytes) {
        return Err(Refusal::Sparse);
    }
    let most = BLOCK as u64 * entry.map.len();
    if bytes.len() as u64 > most {
        return Err(Refusal::TooLarge(bytes.len() as u64, most));
    }
    Ok((destination, bytes))
}

// The first partition of a base name.
fn part_named<'a>(parts: &'a Listing<Part>, base: &[u8]) -> Option<&'a Part>
    ensures { option_copied result ≡ part_named base.now parts.now }
{
    for part in parts.as_slice() {
        if part.name.text() == base {
            return Some(part);
        }
    }
    None
}

/// The partition of a base name in a slot, where the slot has images.
pub fn part_at<'a>(device: &'a Device, slot: usize, base: &[u8]) -> Option<&'a Part>
    requires { slot < 2 }
    ensures { option_copied result ≡ part_at device.now slot base.now }
{
    match device.images(slot) {
        Some(parts) => part_named(parts, base),
        None => None,
    }
}

/// The planned partition at a place.
pub fn planned_at(device: &Device, place: usize) -> &Part
    requires { place < length (plan_or device.now.plan) }
    ensures { result.now ≡ planned_at device.now place }
{
    match &device.plan {
        Some(plan) => &plan.as_slice()[place],
        None => unreachable!(),
    }
}

/// The place in the plan of the partition that a name names, where its image goes, and the staged
/// bytes for it; or why there are none. Whether a store has room isn't asked yet. Takes no memory.
pub fn choose<'a>(
    device: &Device,
    name: &[u8],
    staged: Option<&'a [u8]>,
) -> Result<(usize, Destination, &'a [u8]), Refusal>
    requires slot { device.now.mark.slot < 2 }
    requires small { All (λ p. length p.map ≤ 2 ^ 28) (plan_or device.now.plan) }
    ensures chosen { IfOk result
        (λ r. IsChosen device.now name.now (option_map (λ s. s.now) staged.entry) r.0 r.1
        r.2.now) }
    ensures refused { (image : Image) (k : Chunk) → IfErr result
        (λ f. effect_on (mounted_on device.now image) (option_map (λ s. s.now) staged.entry)
        (Flash name.now k)
        ≡ refuses f) }
{
    match find(device, name) {
        Ok(place) => match fit(planned_at(device, place), device.mark.apart, staged) {
            Ok((destination, bytes)) => Ok((place, destination, bytes)),
            Err(refusal) => Err(refusal),
        },
        Err(refusal) => Err(refusal),
    }
}
