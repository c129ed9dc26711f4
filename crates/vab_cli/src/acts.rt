//! What is done on a device that is open, and closed by its line.
ghost use Rattle.std.specs.Prelude.{◌≡◌, ◌≤◌, [], ◌∷◌, length, Ok, IsErrOf};
ghost use Rattle.vab_disk.specs.Calls.{Changes};
ghost use Rattle.vab_bootctl.specs.declared.slots.Control.{Control};
ghost use Rattle.vab_bootctl.specs.Control.{control_of};
ghost use Rattle.vab_model.specs.Commands.{command_of};
ghost use Rattle.vab_device.specs.Kept.{IsDevice};
ghost use Rattle.vab_device.specs.Mounted.{Mounted, mounted_on};
ghost use Rattle.vab_device.specs.Reading.{IsIn, Represents};
ghost use Rattle.vab_cli.specs.Acts.{PerformsActs, closed_by, command_act, status_in};
ghost use Rattle.vab_cli.specs.Causes.{IsRefusedOn};
ghost use Rattle.vab_cli.specs.Touched.{IsOfDone};
ghost use Rattle.vab_cli.specs.Written.{WritesActs};
ghost use Rattle.vab_update.specs.Install.{order};
ghost use Rattle.vab_model.specs.Kinds.{IsVerb};

use crate::Status;
use crate::line::{put_front, reply_line};
use crate::noting::note_reply;
use crate::telling::say_line;
use arrayvec::ArrayVec;
use std::alloc::Global;
use vab_causes::Cause;
use vab_commands::run_one;
use vab_device::Device;
use vab_disk::{Disk, Port};
use vab_merging::left;
use vab_model::{Command, Reply};

// The device where its command is done, or the status.
fn closed(device: Device, reply: &Reply) -> Result<Device, Status>
    ensures { result ≡ closed_by device reply.now }
{
    match reply {
        Reply::Refused(_) => Err(Status::Refused),
        Reply::Done
        | Reply::Booted(_)
        | Reply::Bytes(_)
        | Reply::Digest(_)
        | Reply::Left(_)
        | Reply::Merged => Ok(device),
    }
}

/// The status that a run ends with.
pub(crate) fn ended(last: Result<Device, Status>) -> Status
    ensures { result ≡ status_in last }
{
    match last {
        Ok(_) => Status::Done,
        Err(status) => status,
    }
}

/// Carries out a command, and tells its line behind a text, which isn't told of a refusal. The
/// device is answered where the command is done.
pub(crate) fn perform<P: Port>(
    alloc: Global,
    port: &mut P,
    device: Device,
    command: &Command,
    front: &[u8],
    cause: &mut Option<Cause>,
) -> Result<Device, Status>
    requires verb { IsVerb (command_of command.now) }
    requires short { length front.now ≤ 80 }
    requires kept { IsDevice device (P.size port.old) }
    requires represents { P.is_modelled → Represents device (P.size port.old) (P.seen port.old) }
    ensures performs { PerformsActs P.Disk device
        (command_act front.now (command_of command.now) ∷ [])
        port.old port.new result }
    // It writes what its command writes there, and nothing where that changes nothing.
    ensures writes { P.is_modelled
        → WritesActs P.Disk device (order (command_of command.now) ∷ []) port.old port.new result }
    // It takes no memory.
    ensures memory { IsErrOf result Status.NoMemory → ⊥ }
    // A refusal is that of the table of effects.
    ensures refused { P.is_modelled
        → IsErrOf result Status.Refused
        → IsRefusedOn (mounted_on device (P.seen port.old)) (command_of command.now) cause.new }
    ensures changes { P.is_modelled
        → (s : Mounted)
        → IsIn (P.size port.old) s (P.seen port.old)
        → (boot : Control)
        → control_of (P.seen port.old 4) ≡ Ok boot
        → Changes P.Disk
        (IsOfDone device s boot (command_of command.now) (P.seen port.old 4))
        port.old port.new }
{
    let current = device.current();
    let blocks = left(&device);
    let (device, reply) = match run_one(alloc, port, device, command, None) {
        Ok(done) => done,
        Err(_) => return Err(Status::Disk),
    };
    let mut line = ArrayVec::new();
    put_front(front, &reply, &mut line);
    reply_line(command, current, blocks, &reply, &mut line);
    note_reply(&reply, cause);
    match say_line(port, line.as_slice()) {
        Ok(()) => closed(device, &reply),
        Err(status) => Err(status),
    }
}
