//! The commands on slots.

ghost use Rattle.std.specs.Prelude.{◌≡◌, ◌==◌, ℕ, List, Option, is_some, if◌then◌else◌};
ghost use Rattle.vab_bootctl.specs.Control.{Fits};
ghost use Rattle.vab_bootctl.specs.Boot.{activated_of};
ghost use Rattle.vab_model.specs.Commands.{SetActive, Boot, Mark};
ghost use Rattle.vab_device.specs.Kept.{IsDevice};
ghost use Rattle.vab_device.specs.Reading.{Represents};
ghost use Rattle.vab_manager.specs.Commands.{DoesCommand};

use crate::change::change;
use vab_bootctl::{Control, activated, booted, marked};
use vab_device::Device;
use vab_disk::Disk;
use vab_gate::DiskFault;
use vab_model::{Refusal, Reply};

// Whether a slot has images.
fn has_images(device: &Device, slot: usize) -> bool
    ensures { result ≡ is_some (if slot == 0 then device.now.a else device.now.b) }
{
    if slot == 0 {
        device.a.is_some()
    } else {
        device.b.is_some()
    }
}

// The boot control where this slot was set active.
#[tactic(auto, unfolding(vab_bootctl::specs::Boot::activated_of))]
fn activated_at(control: &Control, slot: usize) -> Control
    requires { Fits control.now }
    ensures value { result ≡ activated_of control.now slot }
    ensures fits { Fits result }
{
    if slot == 0 {
        activated(control, 0)
    } else {
        activated(control, 1)
    }
}

/// Makes a slot the one to boot next; refused where it has no images.
pub fn set_active<D: Disk>(
    d: &mut D,
    device: Device,
    slot: usize,
) -> Result<(Device, Reply), DiskFault>
    requires kept { IsDevice device (D.size d.old) }
    requires represents { D.is_modelled → Represents device (D.size d.old) (D.seen d.old) }
    ensures { (staged : Option (List ℕ))
        → DoesCommand D.Disk device staged (SetActive slot) d.old d.new result }
{
    if !has_images(&device, slot) {
        return Ok((device, Reply::Refused(Refusal::NoImages)));
    }
    let control = activated_at(&device.control, slot);
    change(d, device, control, Reply::Done)
}

/// Boots the bootable slot of the higher priority, a on a tie.
pub fn boot<D: Disk>(d: &mut D, device: Device) -> Result<(Device, Reply), DiskFault>
    requires kept { IsDevice device (D.size d.old) }
    requires represents { D.is_modelled → Represents device (D.size d.old) (D.seen d.old) }
    ensures { (staged : Option (List ℕ))
        → DoesCommand D.Disk device staged Boot d.old d.new result }
{
    let has = [has_images(&device, 0), has_images(&device, 1)];
    let control = booted(&device.control, has);
    change(d, device, control, Reply::Booted(control.current))
}

/// Marks the current slot as one that works.
pub fn mark<D: Disk>(d: &mut D, device: Device) -> Result<(Device, Reply), DiskFault>
    requires kept { IsDevice device (D.size d.old) }
    requires represents { D.is_modelled → Represents device (D.size d.old) (D.seen d.old) }
    ensures { (staged : Option (List ℕ))
        → DoesCommand D.Disk device staged Mark d.old d.new result }
{
    let control = marked(&device.control);
    change(d, device, control, Reply::Done)
}
