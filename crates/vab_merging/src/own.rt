//! The partitions of the slot of the mark, taken out of a device and put back.

ghost use Rattle.std.specs.Prelude.{◌≡◌, ◌<◌, List, IsSome};
ghost use Rattle.vab_device.specs.declared.device.Part.{Part as PartOf};
ghost use Rattle.vab_device.specs.Kept.{parts_at};
ghost use Rattle.vab_merging.specs.Turns.{own_of, with_own};

use vab_bytes::Listing;
use vab_device::{Device, Part};

/// The device without the partitions of the slot of its mark, and those. Takes no memory.
pub fn take_own(device: Device) -> (Device, Listing<Part>)
    requires { IsSome (parts_at device device.mark.slot) }
    ensures parts { result.1 ≡ own_of device }
    ensures rest { (parts : List PartOf) → with_own result.0 parts ≡ with_own device parts }
{
    let mut device = device;
    let own = if device.mark.slot == 0 {
        device.a.take()
    } else {
        device.b.take()
    };
    match own {
        Some(parts) => (device, parts),
        None => unreachable!(),
    }
}

/// The device with these partitions of the slot of its mark. Takes no memory.
pub fn give_own(device: Device, parts: Listing<Part>) -> Device
    ensures { result ≡ with_own device parts }
{
    if device.mark.slot == 0 {
        Device {
            a: Some(parts),
            ..device
        }
    } else {
        Device {
            b: Some(parts),
            ..device
        }
    }
}
