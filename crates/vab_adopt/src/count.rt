//! How much was adopted.

ghost use Rattle.std.specs.Prelude.{◌≡◌, ◌<◌, ℕ, ◌==◌, if◌then◌else◌};
ghost use Rattle.vab_device.specs.Kept.{AreParts, ArePresent};
ghost use Rattle.vab_adopt.specs.Counting.{blocks_over, IsCountOf};

use vab_device::{Device, Part};
use vab_marks::UpdateMark;

/// How much was adopted.
#[derive(Clone, Copy, Debug, PartialEq, Eq)]
pub struct Adopted {
    /// The images of the slot.
    pub images: u64,
    /// The blocks of 4096 bytes that they fill.
    pub blocks: u64,
    /// The blocks of 4096 bytes that partitions may have.
    pub cap: u64,
    /// The mark of what was there, and is dropped: an update that is installed, ready or being
    /// merged, or an overlay.
    pub dropped: Option<UpdateMark>,
}

// The blocks of these partitions.
fn blocks_over(parts: &[Part]) -> u64
    requires { (size : ℕ) × AreParts size parts.now }
    ensures { result ≡ blocks_over parts.now }
{
    let mut sum = 0;
    for part in parts {
        sum += part.map.len();
    }
    sum
}

/// What is counted of a slot of a device, where this update is dropped.
pub(crate) fn count(device: &Device, slot: usize, dropped: Option<UpdateMark>) -> Adopted
    requires slot { slot < 2 }
    requires present { (size : ℕ)
        × ArePresent size (if slot == 0 then device.now.a else device.now.b) }
    ensures counts { IsCountOf device.now slot result }
    ensures dropped { result.dropped ≡ dropped }
{
    let cap = device.cap();
    match device.images(slot) {
        None => Adopted {
            images: 0,
            blocks: 0,
            cap,
            dropped,
        },
        Some(parts) => Adopted {
            images: parts.len() as u64,
            blocks: blocks_over(parts.as_slice()),
            cap,
            dropped,
        },
    }
}
