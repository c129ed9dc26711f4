//! An update that is dropped.

ghost use Rattle.std.specs.Prelude.{◌≡◌, ◌<◌, ℕ, List, Option, None};
ghost use Rattle.vab_model.specs.Commands.{Cancel};
ghost use Rattle.vab_device.specs.Does.{Does};
ghost use Rattle.vab_device.specs.Kept.{IsDevice};
ghost use Rattle.vab_device.specs.Reading.{Represents};
ghost use Rattle.vab_begin.specs.Kept.{without_update};
ghost use Rattle.vab_begin.specs.Writes.{IsOfCancelled, MayEnd};

use crate::kept::{with_update, without_target};
use vab_device::{Device, PhaseKind};
use vab_disk::Disk;
use vab_gate::DiskFault;
use vab_install::put_mark;
use vab_marks::MarkPhase;
use vab_model::{Refusal, Reply};

// The device without its update.
fn ended(device: Device) -> Device
    requires { device.mark.slot < 2 }
    ensures { result ≡ without_update device }
{
    let mark = device.mark.with_phase(MarkPhase::Idle);
    without_target(with_update(device, mark, None, None))
}

// Drops the update: the mark says that there is none.
fn end_update<D: Disk>(d: &mut D, device: Device) -> Result<(Device, Reply), DiskFault>
    requires kept { IsDevice device (D.size d.old) }
    requires represents { D.is_modelled → Represents device (D.size d.old) (D.seen d.old) }
    requires ends { MayEnd device }
    ensures { (staged : Option (List ℕ))
        → Does D.Disk device staged Cancel (IsOfCancelled device) d.old d.new result }
{
    let mark = device.mark.with_phase(MarkPhase::Idle);
    match put_mark(d, &mark) {
        Err(fault) => Err(fault),
        Ok(()) => Ok((ended(device), Reply::Done)),
    }
}

/// Drops an update, by one gate: the update mark says that there is none, and the target's table,
/// its plan and its images are kept no more. All else on the disk stays. Refused where there is no
/// update, with `NothingToCancel`; with `RunningTarget` where the target was booted last; and with
/// `Merging` where the source's images are given up. Takes no memory.
pub fn cancel<D: Disk>(d: &mut D, device: Device) -> Result<(Device, Reply), DiskFault>
    requires kept { IsDevice device (D.size d.old) }
    requires represents { D.is_modelled → Represents device (D.size d.old) (D.seen d.old) }
    ensures { (staged : Option (List ℕ))
        → Does D.Disk device staged Cancel (IsOfCancelled device) d.old d.new result }
{
    match device.phase() {
        PhaseKind::Idle => Ok((device, Reply::Refused(Refusal::NothingToCancel))),
        PhaseKind::Installing(_) => end_update(d, device),
        PhaseKind::Staged(source) => {
            if device.current() == source {
                end_update(d, device)
            } else {
                Ok((device, Reply::Refused(Refusal::RunningTarget)))
            }
        }
        PhaseKind::Merging(_) => Ok((device, Reply::Refused(Refusal::Merging))),
    }
}
