//! An update that begins.

ghost use Rattle.std.specs.Prelude.{false, ◌≡◌, ◌<◌, ℕ, List, Option, Some, IfOk};
ghost use Rattle.vab_marks.specs.declared.mark.MarkPhase.TheVariants as marks;
ghost use Rattle.vab_marks.specs.Mark.{begun};
ghost use Rattle.vab_install.specs.Control.{cleared_of, IsWritten};
ghost use Rattle.vab_layout.specs.Slots.{other_slot};
ghost use Rattle.vab_model.specs.declared.command.Reply.TheVariants as replies;
ghost use Rattle.vab_device.specs.Does.{Does};
ghost use Rattle.vab_device.specs.Kept.{IsDevice};
ghost use Rattle.vab_device.specs.Reading.{Represents};
ghost use Rattle.vab_begin.specs.Kept.{with_control, with_update};
ghost use Rattle.vab_begin.specs.Target.{IsTargetFor};
ghost use Rattle.vab_begin.specs.Writes.{begin_of, IsOfBegun};

use crate::kept::with_update;
use crate::target::{Target, refusal, target_for};
use std::alloc::Global;
use vab_device::{Device, PhaseKind};
use vab_disk::Disk;
use vab_gate::DiskFault;
use vab_install::{cleared, prepare_begin, put_mark};
use vab_model::{Refusal, Reply};

// The device with an update to this target, which stands apart or not.
fn with_target(device: Device, target: Target, apart: bool) -> Device
    requires { device.mark.slot < 2 }
    ensures { result
        ≡ with_control (cleared_of device.control (other_slot device.mark.slot))
        (with_update device (begun apart device.mark) (Some target.table) (Some target.plan)) }
{
    let mark = device.mark.begun(apart);
    let control = cleared(&device.control, 1 - device.mark.slot);
    let Target {
        table,
        text: _,
        plan,
    } = target;
    let device = with_update(device, mark, Some(table), Some(plan));
    Device { control, ..device }
}

// Begins an update to this target, which stands apart or not: what is read in it is written first,
// and then the mark.
fn begin_to<D: Disk>(
    d: &mut D,
    device: Device,
    target: Target,
    apart: bool,
) -> Result<(Device, Reply), DiskFault>
    requires kept { IsDevice device (D.size d.old) }
    requires represents { D.is_modelled → Represents device (D.size d.old) (D.seen d.old) }
    requires idle { device.mark.phase ≡ marks.Idle }
    requires plain { device.mark.overlaid ≡ false }
    requires target { IsTargetFor apart device target }
    ensures does { (staged : Option (List ℕ))
        → Does D.Disk device staged (begin_of apart)
        (IsOfBegun D.is_modelled apart device (D.seen d.old 4)) d.old d.new result }
    // Boot control then says nothing of the target, and all other bits of its sector stay.
    ensures control { D.is_modelled → IfOk result
        (λ r. r.1 ≡ replies.Done
        → IsWritten (cleared_of device.control (other_slot device.mark.slot))
        (D.seen d.old 4) (D.seen d.new 4)) }
{
    let slot = device.mark.slot;
    let text = target.text.as_slice();
    match prepare_begin(d, &device.geometry, 1 - slot, &device.control, text) {
        Err(fault) => Err(fault),
        Ok(()) => {
            let mark = device.mark.begun(apart);
            match put_mark(d, &mark) {
                Err(fault) => Err(fault),
                Ok(()) => Ok((with_target(device, target, apart), Reply::Done)),
            }
        }
    }
}

/// Begins an update: the target's table is that of the source, with twins of its partitions on the
/// same blocks, or without any where the target is to stand `apart`, as in a factory install. It
/// stands on the disk, and no statuses and nothing of the target in boot control, before one gate
/// of the update mark says that an update is installed. Refused with `NotIdle` where there is an
/// update or an overlay, and with `TableFull` where the table's text would be longer than a copy
/// may be. `NoMemory` where memory is refused, before anything is written.
pub fn begin<D: Disk>(
    alloc: Global,
    d: &mut D,
    device: Device,
    apart: bool,
) -> Result<(Device, Reply), DiskFault>
    requires kept { IsDevice device (D.size d.old) }
    requires represents { D.is_modelled → Represents device (D.size d.old) (D.seen d.old) }
    ensures does { (staged : Option (List ℕ))
        → Does D.Disk device staged (begin_of apart)
        (IsOfBegun D.is_modelled apart device (D.seen d.old 4)) d.old d.new result }
    // Boot control then says nothing of the target, and all other bits of its sector stay.
    ensures control { D.is_modelled → IfOk result
        (λ r. r.1 ≡ replies.Done
        → IsWritten (cleared_of device.control (other_slot device.mark.slot))
        (D.seen d.old 4) (D.seen d.new 4)) }
{
    if device.mark.overlaid {
        return Ok((device, Reply::Refused(Refusal::NotIdle)));
    }
    match device.phase() {
        PhaseKind::Installing(_) => Ok((device, Reply::Refused(Refusal::NotIdle))),
        PhaseKind::Staged(_) => Ok((device, Reply::Refused(Refusal::NotIdle))),
        PhaseKind::Merging(_) => Ok((device, Reply::Refused(Refusal::NotIdle))),
        PhaseKind::Idle => match target_for(alloc, &device, apart) {
            Err(fault) => Ok((device, Reply::Refused(refusal(fault)))),
            Ok(target) => begin_to(d, device, target, apart),
        },
    }
}
