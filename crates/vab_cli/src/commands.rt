//! The verbs that are one command.
ghost use Rattle.std.specs.Prelude.{◌≡◌, ◌≢◌, ◌⊎◌, Ok, Err};
ghost use Rattle.vab_disk.specs.Disk.{DiskFailed, SinkFailed};
ghost use Rattle.vab_disk.specs.Calls.{Changes};
ghost use Rattle.vab_bootctl.specs.declared.slots.Control.{Control};
ghost use Rattle.vab_bootctl.specs.Control.{control_of};
ghost use Rattle.vab_model.specs.Commands.{command_of};
ghost use Rattle.vab_device.specs.declared.fault.StartFault.{StartFault as Fault};
ghost use Rattle.vab_device.specs.Mounted.{Mounted};
ghost use Rattle.vab_device.specs.Reading.{device, IsIn};
ghost use Rattle.vab_cli.specs.Causes.{IsNoDevice, IsRefusedAs};
ghost use Rattle.vab_commands.specs.Copies.{HasBothCopies};
ghost use Rattle.vab_cli.specs.Copies.{IsAnswered};
ghost use Rattle.vab_cli.specs.Counts.{HearsNothing, IsSteady};
ghost use Rattle.vab_cli.specs.Verbs.{none_line, command_line, command_item, verb_status};
ghost use Rattle.vab_model.specs.Kinds.{IsVerb};
ghost use Rattle.vab_cli.specs.Touched.{IsOfVerb};
ghost use Rattle.vab_cli.specs.Runs.{RunsItem, FailsBefore, RunsNone};

use crate::Status;
use crate::acts::{ended, perform};
use crate::line::NOT_A_DEVICE;
use crate::opening::open;
use std::alloc::Global;
use vab_causes::Cause;
use vab_disk::{Disk, Port};
use vab_model::Command;

/// Opens the device, carries out a command, and tells its line.
pub(crate) fn run_command<P: Port>(
    alloc: Global,
    port: &mut P,
    command: &Command,
    cause: &mut Option<Cause>,
) -> Status
    requires { IsVerb (command_of command.now) }
    ensures runs { P.is_modelled
        → (s : Mounted)
        → IsIn (P.size port.old) s (P.seen port.old)
        → RunsItem P.Disk (P.size port.old) s
        (command_item s (command_of command.now) (command_line s (command_of command.now)))
        (verb_status s (command_of command.now))
        port.old port.new result
        ⊎ FailsBefore P.Disk (P.size port.old) s port.old port.new result }
    ensures none { P.is_modelled
        → (fault : Fault)
        → device (P.size port.old) (P.seen port.old) ≡ Err fault
        → RunsNone P.Disk (P.size port.old) none_line port.old port.new result }
    ensures changes { P.is_modelled
        → (s : Mounted)
        → IsIn (P.size port.old) s (P.seen port.old)
        → (boot : Control)
        → control_of (P.seen port.old 4) ≡ Ok boot
        → Changes P.Disk
        (IsOfVerb (P.size port.old) (P.seen port.old) s boot (command_of command.now))
        port.old port.new }
    ensures quiet { P.is_modelled → HearsNothing P.Disk port.old port.new }
    // Where it is done or refused, both copies of each table agree.
    ensures copies { P.is_modelled
        → (s : Mounted)
        → IsIn (P.size port.old) s (P.seen port.old)
        → IsAnswered result
        → HasBothCopies (P.size port.old) (P.seen port.new) }
    ensures steady { IsSteady P.Disk port.old port.new result }
    ensures words { result ≢ Status.Usage }
    ensures disk { result ≡ Status.Disk → DiskFailed (P.faults port.old) (P.faults port.new) }
    ensures port { result ≡ Status.Port → SinkFailed (P.faults port.old) (P.faults port.new) }
    // Where there is none, the cause is the first thing that is wrong with the disk.
    ensures unopened { P.is_modelled
        → result ≡ Status.NotADevice
        → IsNoDevice P.Disk port.old cause.new }
    // Where the command is refused, it is the refusal of the table of effects.
    ensures refused { P.is_modelled
        → result ≡ Status.Refused
        → IsRefusedAs P.Disk port.old (command_of command.now) cause.new }
{
    let device = match open(alloc, port, NOT_A_DEVICE, cause) {
        Ok(device) => device,
        Err(status) => return status,
    };
    ended(perform(alloc, port, device, command, b"", cause))
}
