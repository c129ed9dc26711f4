//! Whether an installation may end.

ghost use Rattle.std.specs.Prelude.{◌≡◌, Option, IfNone, IfSome, None, option_map, List, ℕ};
ghost use Rattle.vab_disk.specs.Disk.{Image};
ghost use Rattle.vab_model.specs.Commands.{Finish};
ghost use Rattle.vab_model.specs.Effects.{refuses};
ghost use Rattle.vab_model.specs.Machine.{lesser};
ghost use Rattle.vab_device.specs.Mounted.{mounted_on};
ghost use Rattle.vab_device.specs.Updates.{effect_on};
ghost use Rattle.vab_finish.specs.Ready.{declared_of, least_of, MayFinish};

use std::cmp::Ordering;
use vab_bytes::{Listing, Name36};
use vab_device::{Device, Part, PartImage};
use vab_model::Refusal;

// The lesser of two names, byte by byte.
fn lesser(least: Option<Name36>, name: Name36) -> Option<Name36>
    ensures { result ≡ lesser least name }
{
    match least {
        None => Some(name),
        Some(least) => match name.text().cmp(least.text()) {
            Ordering::Less => Some(name),
            Ordering::Equal => Some(least),
            Ordering::Greater => Some(least),
        },
    }
}

// The lesser of this name and the partition's, where that is declared and not written.
fn declared(least: Option<Name36>, part: &Part) -> Option<Name36>
    ensures { result ≡ declared_of least part.now }
{
    match part.image {
        PartImage::Kept => least,
        PartImage::Declared => lesser(least, part.name),
        PartImage::Written(_, _) => least,
    }
}

// The least base name of these partitions that are declared and not written.
fn least_declared(plan: &Listing<Part>) -> Option<Name36>
    ensures { result ≡ least_of None plan.now }
{
    let mut least = None;
    for part in plan.as_slice() {
        least = declared(least, part);
    }
    least
}

/// Why an installation may not end, if it may not: none is there, or a partition isn't written.
pub fn refusal(device: &Device) -> Option<Refusal>
    ensures refused { IfSome result (λ r. (image : Image)
        → (staged : Option (List ℕ))
        → effect_on (mounted_on device.now image) staged Finish ≡ refuses r) }
    ensures ready { IfNone result (MayFinish device.now) }
{
    match &device.plan {
        None => Some(Refusal::NotInstalling),
        Some(plan) => match least_declared(plan) {
            Some(name) => Some(Refusal::Incomplete(name)),
            None => None,
        },
    }
}
