//! Which images there are or are planned, and how large they are.
ghost use Rattle.std.specs.Prelude.{◌≡◌, ℕ, is_some};
ghost use Rattle.std.specs.Option.{option_copied};
ghost use Rattle.vab_disk.specs.Disk.{Image};
ghost use Rattle.vab_device.specs.Kept.{IsDevice};
ghost use Rattle.vab_device.specs.Mounted.{state_on};
ghost use Rattle.vab_fbvars.specs.Planned.{planned_named, kept_planned};
ghost use Rattle.vab_fbvars.specs.Variables.{AreSectors, has_base, size_of, size_planned};

use vab_bytes::Listing;
use vab_device::{Device, Part};
use vab_manager::{kept_part, locate};
use vab_names::{base_of, is_full};

// The first planned partition of this base name.
fn named<'a>(plan: &'a Listing<Part>, base: &[u8]) -> Option<&'a Part>
    ensures { option_copied result ≡ planned_named base.now plan.now }
{
    for part in plan.as_slice() {
        if part.name.text() == base {
            return Some(part);
        }
    }
    None
}

// The same of a device.
fn planned<'a>(device: &'a Device, base: &[u8]) -> Option<&'a Part>
    ensures { option_copied result ≡ kept_planned base.now device.now.plan }
{
    match &device.plan {
        None => None,
        Some(plan) => named(plan, base),
    }
}

// Whether such a partition is planned.
fn is_planned(device: &Device, base: &[u8]) -> bool
    ensures { result ≡ is_some (kept_planned base.now device.now.plan) }
{
    planned(device, base).is_some()
}

/// Whether a slot has an image of this base name, or such a partition is planned.
pub(crate) fn has_base(device: &Device, base: &[u8]) -> bool
    ensures { (image : Image) → has_base (state_on device.now image) base.now ≡ result }
{
    if kept_part(device, 0, base).is_some() {
        return true;
    }
    if kept_part(device, 1, base).is_some() {
        return true;
    }
    is_planned(device, base)
}

// How many bytes the planned partition of this name has, where there is one.
fn planned_size(device: &Device, name: &[u8]) -> Option<u64>
    requires { (size : ℕ) × IsDevice device.now size }
    ensures { (image : Image) → size_planned (state_on device.now image).phase name.now ≡ result }
{
    if !is_full(name, 1 - device.mark.slot) {
        return None;
    }
    match planned(device, base_of(name)) {
        Some(part) => Some(4096 * part.map.len()),
        None => None,
    }
}

/// How many bytes the image of this name has, or the planned partition, where there is one.
pub(crate) fn size_of(device: &Device, name: &[u8]) -> Option<u64>
    requires { (size : ℕ) × IsDevice device.now size }
    ensures { (size : ℕ) (image : Image)
        → IsDevice device.now size
        → AreSectors size image
        → size_of (state_on device.now image) name.now ≡ result }
{
    match locate(device, name) {
        Ok((_, blocks)) => Some(4096 * blocks),
        Err(_) => planned_size(device, name),
    }
}
