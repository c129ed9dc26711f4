//! The images of a device.

ghost use Rattle.std.specs.Prelude.{◌≡◌, ◌≤◌, ◌<◌, ◌+◌, length, MatchResult, IfOk, All};
ghost use Rattle.std.specs.Prelude.{Ok, Err, None};
ghost use Rattle.std.specs.Option.{option_copied};
ghost use Rattle.sha2.specs.Sha256.{sha256};
ghost use Rattle.vab_disk.specs.Calls.{FailsWithDisk, OnlyReads};
ghost use Rattle.vab_disk.specs.Disk.{Image};
ghost use Rattle.vab_model.specs.Commands.{Print, Digest as DigestOf};
ghost use Rattle.vab_model.specs.Effects.{answers};
ghost use Rattle.vab_device.specs.Kept.{IsDevice, IsPart};
ghost use Rattle.vab_device.specs.Mounted.{bytes_at, sectors_read, mounted_on, effect_in};
ghost use Rattle.vab_manager.specs.Found.{part_named, as_read, part_in, part_under, found_part};

use crate::reading::read_part;
use sha2::{Digest, Sha256};
use vab_bytes::{Listing, Name36};
use vab_device::{Device, Part};
use vab_disk::Disk;
use vab_gate::DiskFault;
use vab_model::{Refusal, Reply};
use vab_names::{base_of, is_full};

/// The first partition of this base name.
pub fn part_named<'a>(parts: &'a Listing<Part>, base: &[u8]) -> Option<&'a Part>
    ensures { option_copied result ≡ part_named base.now parts.now }
{
    for part in parts.as_slice() {
        if part.name.text() == base {
            return Some(part);
        }
    }
    None
}

// The partition of a slot under a name.
fn part_in<'a>(parts: &'a Option<Listing<Part>>, name: &[u8]) -> Result<&'a Part, Refusal>
    requires { 2 ≤ length name.now }
    ensures { MatchResult result
        (λ p. part_in name.now parts.now ≡ Ok p.now)
        (λ f. part_in name.now parts.now ≡ Err f) }
{
    match parts {
        None => Err(Refusal::NoImages),
        Some(parts) => match part_named(parts, base_of(name)) {
            Some(part) => Ok(part),
            None => Err(Refusal::Unknown),
        },
    }
}

/// A partition as it is read: the overlaid one, where it is that.
pub fn as_read<'a>(device: &'a Device, part: &'a Part) -> &'a Part
    ensures { result.now ≡ as_read (device.now).overlay part.now }
{
    if let Some(overlay) = &device.overlay {
        if overlay.name == part.name {
            return overlay;
        }
    }
    part
}

// The partition of a name with a slot's suffix.
fn part_under<'a>(device: &'a Device, name: &[u8]) -> Result<&'a Part, Refusal>
    ensures { MatchResult result
        (λ p. part_under device.now name.now ≡ Ok p.now)
        (λ f. part_under device.now name.now ≡ Err f) }
{
    if is_full(name, 0) {
        part_in(&device.a, name)
    } else if is_full(name, 1) {
        part_in(&device.b, name)
    } else {
        Err(Refusal::BadName)
    }
}

/// The partition of a name with a slot's suffix as it is read, or why there is none.
pub fn find<'a>(device: &'a Device, name: &[u8]) -> Result<&'a Part, Refusal>
    ensures { MatchResult result
        (λ p. found_part device.now name.now ≡ Ok p.now)
        (λ f. found_part device.now name.now ≡ Err f) }
{
    match part_under(device, name) {
        Ok(part) => Ok(as_read(device, part)),
        Err(refusal) => Err(refusal),
    }
}

/// Whether an image can be told.
pub fn print(device: &Device, name: &[u8]) -> Reply
    ensures { (image : Image)
        → effect_in (mounted_on device.now image) None (Print name.now) ≡ answers result }
{
    match find(device, name) {
        Err(refusal) => Reply::Refused(refusal),
        Ok(_) => match Name36::parse(name) {
            Ok(name) => Reply::Bytes(name),
            Err(_) => unreachable!(),
        },
    }
}

// The SHA-256 of a partition's bytes.
fn digest_of<D: Disk>(d: &mut D, part: &Part) -> Result<[u8; 32], DiskFault>
    requires { IsPart (D.size d.old) part.now }
    ensures digest { D.is_modelled
        → IfOk result (λ h. h ≡ sha256 (bytes_at (D.seen d.old) (sectors_read part.now))) }
    ensures reads { OnlyReads D.Disk d.old d.new }
    ensures faults { FailsWithDisk D.Disk d.old d.new result }
{
    let mut hasher = Sha256::new();
    for block in 0..part.map.len() {
        let mut bytes = [0u8; 4096];
        read_part(d, part, block, &mut bytes)?;
        hasher.update(&bytes);
    }
    Ok(hasher.finalize())
}

/// The SHA-256 of an image's bytes.
pub fn digest<D: Disk>(d: &mut D, device: &Device, name: &[u8]) -> Result<Reply, DiskFault>
    requires kept { IsDevice device.now (D.size d.old) }
    ensures reply { D.is_modelled → IfOk result
        (λ r. effect_in (mounted_on device.now (D.seen d.old)) None (DigestOf name.now)
        ≡ answers r) }
    ensures reads { OnlyReads D.Disk d.old d.new }
    ensures faults { FailsWithDisk D.Disk d.old d.new result }
{
    match find(device, name) {
        Err(refusal) => Ok(Reply::Refused(refusal)),
        Ok(part) => match digest_of(d, part) {
            Ok(sum) => Ok(Reply::Digest(sum)),
            Err(fault) => Err(fault),
        },
    }
}
