//! An installation that ends.

ghost use Rattle.std.specs.Prelude.{◌≡◌, ◌<◌, ◌≤◌, ℕ, List, Option, OnOk};
ghost use Rattle.vab_disk.specs.Calls.{IsAtRest, Touches, FailsWithDisk};
ghost use Rattle.vab_bootctl.specs.Control.{Fits};
ghost use Rattle.vab_install.specs.Control.{HasControl, IsControl};
ghost use Rattle.vab_model.specs.Commands.{Finish};
ghost use Rattle.vab_device.specs.Does.{Does};
ghost use Rattle.vab_device.specs.Kept.{IsDevice};
ghost use Rattle.vab_device.specs.Reading.{Represents};
ghost use Rattle.vab_finish.specs.Ready.{MayFinish};
ghost use Rattle.vab_finish.specs.Writes.{IsOfFinished};

use crate::kept::finished;
use crate::ready::refusal;
use vab_bootctl::Control;
use vab_device::Device;
use vab_disk::Disk;
use vab_gate::{DiskFault, settle};
use vab_install::{cleared, put_info, put_mark};
use vab_marks::{MarkPhase, UpdateMark};
use vab_model::Reply;

// Writes the boot control and syncs.
fn settle_control<D: Disk>(d: &mut D, control: &Control) -> Result<(), DiskFault>
    requires on_disk { 4 < D.size d.old }
    requires fits { Fits control.now }
    ensures sector { D.is_modelled
        → OnOk result (HasControl control.now (D.seen d.old) (D.seen d.new)) }
    ensures settled { D.is_modelled → OnOk result (IsAtRest D.Disk d.new) }
    ensures touches { Touches D.Disk
        (IsControl D.is_modelled control.now (D.seen d.old 4)) d.old d.new }
    ensures faults { FailsWithDisk D.Disk d.old d.new result }
{
    put_info(d, control)?;
    settle(d)
}

// Ends an installation whose partitions are all kept or written.
fn end_installation<D: Disk>(d: &mut D, device: Device) -> Result<(Device, Reply), DiskFault>
    requires kept { IsDevice device (D.size d.old) }
    requires represents { D.is_modelled → Represents device (D.size d.old) (D.seen d.old) }
    requires ready { MayFinish device }
    ensures { (staged : Option (List ℕ))
        → Does D.Disk device staged Finish
        (IsOfFinished D.is_modelled device (D.seen d.old 4)) d.old d.new result }
{
    let slot = device.mark.slot;
    let control = cleared(&device.control, 1 - slot);
    match settle_control(d, &control) {
        Err(fault) => Err(fault),
        Ok(()) => {
            let mark = UpdateMark {
                phase: MarkPhase::Staged,
                overlaid: false,
                ..device.mark
            };
            match put_mark(d, &mark) {
                Err(fault) => Err(fault),
                Ok(()) => Ok((finished(device), Reply::Done)),
            }
        }
    }
}

/// Ends an installation: boot control says nothing of the target any more, and then one gate of the
/// update mark gives the target the images of its plan, so that it may be set active. Refused with
/// `NotInstalling` where no update is installed, and with `Incomplete` where a partition isn't
/// written, the first by its base name. No image is copied, and no memory is taken.
pub fn finish<D: Disk>(d: &mut D, device: Device) -> Result<(Device, Reply), DiskFault>
    requires kept { IsDevice device (D.size d.old) }
    requires represents { D.is_modelled → Represents device (D.size d.old) (D.seen d.old) }
    ensures { (staged : Option (List ℕ))
        → Does D.Disk device staged Finish
        (IsOfFinished D.is_modelled device (D.seen d.old 4)) d.old d.new result }
{
    match refusal(&device) {
        Some(refusal) => Ok((device, Reply::Refused(refusal))),
        None => end_installation(d, device),
    }
}
