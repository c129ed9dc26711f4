//! What boot control says of a slot.
ghost use Rattle.std.specs.Prelude.{◌≡◌};
ghost use Rattle.vab_disk.specs.Disk.{Image};
ghost use Rattle.vab_device.specs.Mounted.{state_on};
ghost use Rattle.vab_fbvars.specs.Variables.{slot_info, is_successful, is_unbootable, tries_left};

use vab_bootctl::Info;
use vab_device::Device;

/// What boot control says of a slot with images; any but 0 is b.
pub(crate) fn slot_info(device: &Device, slot: usize) -> Option<Info>
    ensures { (image : Image) → slot_info (state_on device.now image) slot ≡ result }
{
    if slot == 0 {
        device.slot_info(0)
    } else {
        device.slot_info(1)
    }
}

/// Whether the slot is marked as one that works.
pub(crate) fn is_successful(info: Option<Info>) -> bool
    ensures { result ≡ is_successful info }
{
    match info {
        Some(info) => info.successful,
        None => false,
    }
}

/// Whether the slot can't be booted.
pub(crate) fn is_unbootable(info: Option<Info>) -> bool
    ensures { result ≡ is_unbootable info }
{
    match info {
        Some(info) => info.priority == 0 || (!info.successful && info.tries == 0),
        None => true,
    }
}

/// How many tries the slot has left.
pub(crate) fn tries_left(info: Option<Info>) -> u8
    ensures { result ≡ tries_left info }
{
    match info {
        Some(info) => info.tries,
        None => 0,
    }
}
