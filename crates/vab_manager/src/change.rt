//! Another boot control for a device.

ghost use Rattle.std.specs.Prelude.{◌≡◌, ℕ, List, Option, true};
ghost use Rattle.vab_bootctl.specs.Control.{Fits};
ghost use Rattle.vab_device.specs.Kept.{IsDevice, has_slot};
ghost use Rattle.vab_device.specs.Phases.{may_run};
ghost use Rattle.vab_device.specs.Reading.{Represents};
ghost use Rattle.vab_model.specs.Commands.{Command as CommandOf};
ghost use Rattle.vab_manager.specs.Commands.{DoesCommand};
ghost use Rattle.vab_manager.specs.Controls.{GivesControl, WritesControl};

use crate::control::put_control;
use vab_bootctl::Control;
use vab_device::Device;
use vab_disk::Disk;
use vab_gate::DiskFault;
use vab_model::Reply;

/// Writes a boot control of the device by one gate, and gives this reply.
pub fn change<D: Disk>(
    d: &mut D,
    device: Device,
    control: Control,
    reply: Reply,
) -> Result<(Device, Reply), DiskFault>
    requires kept { IsDevice device (D.size d.old) }
    requires represents { D.is_modelled → Represents device (D.size d.old) (D.seen d.old) }
    requires fits { Fits control }
    requires current { has_slot device.mark.phase device.mark.slot control.current ≡ true }
    requires runs { D.is_modelled → may_run device.mark.slot control ≡ true }
    // It does each command that gives this reply and boot control, and may write it.
    ensures { (staged : Option (List ℕ))
        → (command : CommandOf)
        → (D.is_modelled → GivesControl device (D.seen d.old) staged command reply control)
        → WritesControl device (D.seen d.old 4) command control
        → DoesCommand D.Disk device staged command d.old d.new result }
{
    match put_control(d, &control) {
        Ok(()) => Ok((Device { control, ..device }, reply)),
        Err(fault) => Err(fault),
    }
}
