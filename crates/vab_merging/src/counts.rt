//! How many exceptions are left to merge.

ghost use Rattle.std.specs.Prelude.{◌≡◌, ◌+◌, ◌≤◌, ◌^◌, ℕ};
ghost use Rattle.vab_device.specs.Kept.{IsDevice, AreParts, ArePresent};
ghost use Rattle.vab_device.specs.Mounted.{count_of, count_in, count_at};

use vab_bytes::Listing;
use vab_device::{Device, Part, PartImage};

// The exceptions of a partition's store.
fn count_of(part: &Part) -> u64
    ensures { result ≡ count_of part.now.image }
{
    match &part.image {
        PartImage::Kept => 0,
        PartImage::Declared => 0,
        PartImage::Written(_, view) => view.count(),
    }
}

// Those of the stores of a slot's partitions.
fn count_in(parts: &Listing<Part>) -> u64
    requires { (size : ℕ) × AreParts size parts.now }
    ensures is { result ≡ count_in parts.now }
    ensures few { result ≤ 2 ^ 34 }
{
    let mut count = 0;
    for part in parts.as_slice() {
        count += count_of(part);
    }
    count
}

// The same, where the slot has images.
fn count_at(parts: &Option<Listing<Part>>) -> u64
    requires { (size : ℕ) × ArePresent size parts.now }
    ensures is { result ≡ count_at parts.now }
    ensures few { result ≤ 2 ^ 34 }
{
    match parts {
        None => 0,
        Some(parts) => count_in(parts),
    }
}

/// How many exceptions the stores of slots with images have, at most 2^35.
pub fn left(device: &Device) -> u64
    requires { (size : ℕ) × IsDevice device.now size }
    ensures is { result ≡ count_at device.now.a + count_at device.now.b }
    ensures few { result ≤ 2 ^ 35 }
{
    count_at(&device.a) + count_at(&device.b)
}
