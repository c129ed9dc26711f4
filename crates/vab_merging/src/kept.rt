//! What is kept of a device as a merge begins, and as it ends.

ghost use Rattle.std.specs.Prelude.{◌≡◌, ◌<◌};
ghost use Rattle.vab_merging.specs.GateWrites.{merging_mark};
ghost use Rattle.vab_merging.specs.Kept.{merging_device, ended_device, plain_part, plain_parts};

use vab_bytes::Listing;
use vab_device::{Device, Part, PartImage};
use vab_marks::{MarkPhase, UpdateMark};

// The mark as the target of the update is merged.
fn merging_mark(mark: UpdateMark) -> UpdateMark
    requires { mark.slot < 2 }
    ensures { result ≡ merging_mark mark }
{
    mark.with_phase(MarkPhase::Merging).with_slot(1 - mark.slot)
}

/// The device whose target is merged: the source's images and its table are given up.
pub fn merging(device: Device) -> Device
    requires { device.mark.slot < 2 }
    ensures { result ≡ merging_device device }
{
    let mark = merging_mark(device.mark);
    if device.mark.slot == 0 {
        Device {
            mark,
            a: None,
            table_a: None,
            ..device
        }
    } else {
        Device {
            mark,
            b: None,
            table_b: None,
            ..device
        }
    }
}

// A partition that is its blocks.
fn make_plain(part: &mut Part)
    ensures { part.new ≡ plain_part part.old }
{
    part.store = None;
    part.image = PartImage::Kept;
}

// Partitions that are their blocks.
fn plain(parts: Option<Listing<Part>>) -> Option<Listing<Part>>
    ensures { result ≡ plain_parts parts }
{
    match parts {
        None => None,
        Some(parts) => {
            let mut items = parts.into_vec();
            for part in items.iter_mut() {
                make_plain(part);
            }
            Some(Listing::from_vec(items))
        }
    }
}

/// The device whose stores are merged: its images are read without them.
pub fn ended(device: Device) -> Device
    ensures { result ≡ ended_device device }
{
    let mut device = device;
    let mark = device.mark.with_phase(MarkPhase::Idle);
    let a = plain(device.a.take());
    let b = plain(device.b.take());
    Device {
        mark,
        a,
        b,
        ..device
    }
}
