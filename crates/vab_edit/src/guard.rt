//! What keeps an edit from a plan whose target stands apart.

ghost use Rattle.std.specs.Prelude.{◌≡◌, ◌<◌};
ghost use Rattle.vab_layout.specs.Slots.{other_slot};
ghost use Rattle.vab_edit.specs.Guards.{is_written, is_settled, unless_settled, kept_from};
ghost use Rattle.vab_edit.specs.Guards.{kept_off};
ghost use Rattle.vab_edit.specs.Carried.{planned_named};

use vab_builder::Edit;
use vab_device::{Device, Part, PartImage};
use vab_model::Refusal;
use vab_names::{base_of, is_full};

/// The most bytes of a partition.
const MAX_SIZE: u64 = 1 << 40;

// Whether an image was written.
fn is_written(image: &PartImage) -> bool
    ensures { result ≡ is_written image.now }
{
    match image {
        PartImage::Kept => false,
        PartImage::Declared => false,
        PartImage::Written(_, _) => true,
    }
}

// Whether the first that is planned under this base name is written in place.
fn is_settled(plan: &[Part], name: &[u8], apart: bool) -> bool
    ensures { result ≡ is_settled apart (planned_named name.now plan.now) }
{
    for part in plan {
        if part.name.text() == name {
            return part.store.is_none() && (apart && is_written(&part.image));
        }
    }
    false
}

// Why a partition of this whole name is not edited that is written in place, where the edit passes
// so far.
fn unless_settled(
    plan: &[Part],
    target: usize,
    name: &[u8],
    passes: bool,
    apart: bool,
) -> Option<Refusal>
    requires { target < 2 }
    ensures { result ≡ unless_settled apart passes target name.now plan.now }
{
    if is_full(name, target) && passes && is_settled(plan, base_of(name), apart) {
        Some(Refusal::Written)
    } else {
        None
    }
}

// Why an edit is kept from this plan.
fn kept_from(plan: &[Part], target: usize, edit: &Edit, apart: bool) -> Option<Refusal>
    requires { target < 2 }
    ensures { result ≡ kept_from apart target plan.now edit.now }
{
    match *edit {
        Edit::Create(_, _) => None,
        Edit::Resize(name, bytes) => unless_settled(plan, target, name, bytes <= MAX_SIZE, apart),
        Edit::Delete(name) => unless_settled(plan, target, name, true, apart),
        Edit::AddStore(_, _) => { if apart { Some(Refusal::InPlace) } else { None } }
    }
}

/// Why an edit is kept from the plan of a device, if it is: where the target stands apart, a
/// partition that is written is neither resized nor deleted, and none gets a store.
pub fn kept_off(device: &Device, edit: &Edit) -> Option<Refusal>
    requires { device.now.mark.slot < 2 }
    ensures { result
        ≡ kept_off device.now.mark.apart (other_slot device.now.mark.slot) device.now.plan
        edit.now }
{
    match &device.plan {
        None => None,
        Some(plan) => kept_from(
            plan.as_slice(),
            1 - device.mark.slot,
            edit,
            device.mark.apart,
        ),
    }
}
