//! A merge that begins.

ghost use Rattle.std.specs.Prelude.{◌≡◌, ℕ, List, Option};
ghost use Rattle.vab_bootctl.specs.Boot.{info_at};
ghost use Rattle.vab_model.specs.Commands.{BeginMerge};
ghost use Rattle.vab_device.specs.Does.{Does};
ghost use Rattle.vab_device.specs.Kept.{IsDevice};
ghost use Rattle.vab_device.specs.Reading.{Represents};
ghost use Rattle.vab_merging.specs.GateWrites.{MayMerge, IsOfMergeBegun};

use crate::kept::merging;
use vab_bootctl::Control;
use vab_device::{Device, PhaseKind};
use vab_disk::Disk;
use vab_gate::DiskFault;
use vab_install::put_mark;
use vab_marks::{MarkPhase, UpdateMark};
use vab_model::{Refusal, Reply};

// Whether a slot is marked as one that works.
fn is_successful(control: &Control, slot: usize) -> bool
    ensures { result ≡ (info_at control.now slot).successful }
{
    if slot == 0 {
        control.a.successful
    } else {
        control.b.successful
    }
}

// Gives up the source: the mark says that the target is merged.
fn give_up_source<D: Disk>(d: &mut D, device: Device) -> Result<(Device, Reply), DiskFault>
    requires kept { IsDevice device (D.size d.old) }
    requires represents { D.is_modelled → Represents device (D.size d.old) (D.seen d.old) }
    requires may { MayMerge device }
    ensures { (staged : Option (List ℕ))
        → Does D.Disk device staged BeginMerge (IsOfMergeBegun device) d.old d.new result }
{
    let mark = UpdateMark {
        phase: MarkPhase::Merging,
        slot: 1 - device.mark.slot,
        apart: false,
        overlaid: false,
        ..device.mark
    };
    match put_mark(d, &mark) {
        Err(fault) => Err(fault),
        Ok(()) => Ok((merging(device), Reply::Done)),
    }
}

/// Begins to merge an update, by one gate of the update mark: from then on the source has no images
/// and can't be booted, and those of the target are read through its stores until these are merged.
/// Refused with `NotStaged` where no update is ready, with `NotRunningTarget` where the target
/// wasn't booted last, and with `NotSuccessful` where it isn't marked as one that works. Takes no
/// memory.
pub fn begin_merge<D: Disk>(d: &mut D, device: Device) -> Result<(Device, Reply), DiskFault>
    requires kept { IsDevice device (D.size d.old) }
    requires represents { D.is_modelled → Represents device (D.size d.old) (D.seen d.old) }
    ensures { (staged : Option (List ℕ))
        → Does D.Disk device staged BeginMerge (IsOfMergeBegun device) d.old d.new result }
{
    match device.phase() {
        PhaseKind::Idle => Ok((device, Reply::Refused(Refusal::NotStaged))),
        PhaseKind::Installing(_) => Ok((device, Reply::Refused(Refusal::NotStaged))),
        PhaseKind::Merging(_) => Ok((device, Reply::Refused(Refusal::NotStaged))),
        PhaseKind::Staged(source) => {
            if device.current() == source {
                Ok((device, Reply::Refused(Refusal::NotRunningTarget)))
            } else if is_successful(&device.control, 1 - source) {
                give_up_source(d, device)
            } else {
                Ok((device, Reply::Refused(Refusal::NotSuccessful)))
            }
        }
    }
}
