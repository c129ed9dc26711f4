//! A session over the device of the disk, or over one that is made first.
ghost use Rattle.std.specs.Prelude.{◌≡◌, ◌≢◌, ◌⊎◌, ◌≤◌, ◌<◌, ◌^◌, [], Err, take, drop};
ghost use Rattle.vab_disk.specs.Disk.{DiskFailed, SinkFailed, SourceFailed};
ghost use Rattle.vab_disk.specs.Calls.{Changes, InSectors};
ghost use Rattle.vab_device.specs.declared.fault.StartFault.{StartFault as Fault};
ghost use Rattle.vab_device.specs.Mounted.{Mounted};
ghost use Rattle.vab_device.specs.Reading.{device, IsIn};
ghost use Rattle.vab_make.specs.Made.{made_device_of};
ghost use Rattle.vab_make.specs.Making.{LeavesMaking};
ghost use Rattle.vab_make.specs.Touched.{IsOfMaking};
ghost use Rattle.vab_recover.specs.Opening.{IsOfOpening};
ghost use Rattle.vab_commands.specs.Touched.{IsOfAll, IsOfCommands};
ghost use Rattle.vab_session.specs.Sparing.{SparesSource};
ghost use Rattle.vab_cli.specs.Causes.{IsBrokenOff, IsNoDevice, IsUnmade};
ghost use Rattle.vab_cli.specs.Touched.{IsOfServing, IsOfFresh};
ghost use Rattle.vab_commands.specs.Copies.{HasBothCopies};
ghost use Rattle.vab_cli.specs.Copies.{IsAnswered};
ghost use Rattle.vab_cli.specs.Counts.{HearsNothing, IsSteady};
ghost use Rattle.vab_cli.specs.Written.{WritesServed};
ghost use Rattle.vab_cli.specs.Runs.{RunsSession, FailsBefore, RunsNone, RunsRefused, FailsMaking};

use crate::Status;
use crate::opening::open;
use crate::status::{session_cause, session_status};
use std::alloc::Global;
use vab_bytes::Listing;
use vab_causes::Cause;
use vab_disk::{Disk, Port};
use vab_make::make_device;
use vab_recover::start;
use vab_session::serve_with;

/// A session over the device of the disk, with so many turns of a merge behind the hello and behind
/// each reply.
pub(crate) fn open_and_serve<P: Port>(
    alloc: Global,
    port: &mut P,
    turns: u64,
    cause: &mut Option<Cause>,
) -> Status
    ensures runs { P.is_modelled
        → (s : Mounted)
        → IsIn (P.size port.old) s (P.seen port.old)
        → RunsSession P.Disk (P.size port.old) (λ o. ⊥) turns s port.old port.new result
        ⊎ FailsBefore P.Disk (P.size port.old) s port.old port.new result }
    ensures changes { P.is_modelled
        → (s : Mounted)
        → IsIn (P.size port.old) s (P.seen port.old)
        → Changes P.Disk
        (IsOfServing IsOfAll (P.size port.old) (P.seen port.old))
        port.old port.new }
    ensures spared { P.is_modelled
        → (s : Mounted)
        → IsIn (P.size port.old) s (P.seen port.old)
        → SparesSource (2 ^ 44) turns (P.input_left port.old)
        → Changes P.Disk
        (IsOfServing IsOfCommands (P.size port.old) (P.seen port.old))
        port.old port.new }
    ensures none { P.is_modelled
        → (fault : Fault)
        → device (P.size port.old) (P.seen port.old) ≡ Err fault
        → RunsNone P.Disk (P.size port.old) [] port.old port.new result }
    // However the session ends, both copies of each table agree.
    ensures copies { P.is_modelled
        → (s : Mounted)
        → IsIn (P.size port.old) s (P.seen port.old)
        → IsAnswered result
        → HasBothCopies (P.size port.old) (P.seen port.new) }
    // What it writes is what its packets write in turn, from the device that was opened.
    ensures writes { P.is_modelled
        → (s : Mounted)
        → IsIn (P.size port.old) s (P.seen port.old)
        → WritesServed P.Disk (IsOfOpening (P.size port.old) (P.seen port.old)) turns
        (P.size port.old)
        (drop 4 (take (2 ^ 44) (P.input_left port.old)))
        port.old port.new }
    ensures unheard { P.is_modelled
        → (fault : Fault)
        → device (P.size port.old) (P.seen port.old) ≡ Err fault
        → HearsNothing P.Disk port.old port.new }
    ensures steady { IsSteady P.Disk port.old port.new result }
    ensures words { result ≢ Status.Usage }
    ensures disk { result ≡ Status.Disk → DiskFailed (P.faults port.old) (P.faults port.new) }
    ensures port { result ≡ Status.Port
        → SourceFailed (P.faults port.old) (P.faults port.new)
        ⊎ SinkFailed (P.faults port.old) (P.faults port.new) }
    // Where there is none, the cause is the first thing that is wrong with the disk.
    ensures unopened { P.is_modelled
        → result ≡ Status.NotADevice
        → IsNoDevice P.Disk port.old cause.new }
    // Where the input is malformed, the cause is how its session ends.
    ensures broken_off { P.is_modelled
        → result ≡ Status.Malformed
        → IsBrokenOff P.Disk port.old cause.new }
{
    let device = match open(alloc, port, b"", cause) {
        Ok(device) => device,
        Err(status) => return status,
    };
    let answer = serve_with(alloc, port, device, turns);
    *cause = session_cause(&answer);
    session_status(&answer)
}

// The most bytes of a copy of a table of a fresh device.
const FRESH_METADATA_MAX: u32 = 65536;

/// A session over the device of the empty set, which is made first.
pub(crate) fn make_and_serve<P: Port>(
    alloc: Global,
    port: &mut P,
    turns: u64,
    cause: &mut Option<Cause>,
) -> Status
    ensures runs { P.is_modelled
        → 6152 ≤ P.size port.old
        → RunsSession P.Disk (P.size port.old)
        (LeavesMaking (P.told port.old) [] 0 65536 (P.size port.old) (P.seen port.old)) turns
        (made_device_of [] 0 65536 (P.size port.old))
        port.old port.new result
        ⊎ FailsMaking P.Disk (P.size port.old) [] 0 65536 port.old port.new result }
    ensures changes { P.is_modelled
        → Changes P.Disk (IsOfFresh IsOfAll (P.size port.old)) port.old port.new }
    ensures spared { P.is_modelled
        → SparesSource (2 ^ 44) turns (P.input_left port.old)
        → Changes P.Disk (IsOfFresh IsOfCommands (P.size port.old)) port.old port.new }
    ensures small { P.is_modelled
        → P.size port.old < 6152
        → RunsRefused P.Disk (P.size port.old) [] Status.NotADevice port.old port.new result }
    ensures too_small { P.size port.old < 6152
        → (result ≡ Status.NotADevice) ⊎ (result ≡ Status.NoMemory) }
    // What it writes is what making does, and what its packets write in turn on the made device.
    ensures writes { P.is_modelled
        → WritesServed P.Disk (InSectors (IsOfMaking [] 65536)) turns (P.size port.old)
        (drop 4 (take (2 ^ 44) (P.input_left port.old)))
        port.old port.new }
    // However the session ends, both copies of each table agree.
    ensures copies { P.is_modelled
        → (result ≡ Status.Done) ⊎ (result ≡ Status.Malformed)
        → HasBothCopies (P.size port.old) (P.seen port.new) }
    ensures steady { IsSteady P.Disk port.old port.new result }
    ensures words { result ≢ Status.Usage }
    ensures disk { result ≡ Status.Disk → DiskFailed (P.faults port.old) (P.faults port.new) }
    ensures port { result ≡ Status.Port
        → SourceFailed (P.faults port.old) (P.faults port.new)
        ⊎ SinkFailed (P.faults port.old) (P.faults port.new) }
    // Where none is made, the cause is the first refusal.
    ensures unmade { P.is_modelled
        → result ≡ Status.NotADevice
        → IsUnmade P.Disk port.old [] 0 65536 cause.new }
    // Where the input is malformed, the cause is how its session ends.
    ensures broken_off { P.is_modelled
        → result ≡ Status.Malformed
        → IsBrokenOff P.Disk port.old cause.new }
{
    let set = Listing::from_vec(Vec::new(alloc));
    match make_device(alloc, port, &set, 0, FRESH_METADATA_MAX) {
        Ok(()) => {}
        Err(fault) => {
            *cause = Some(Cause::Making(fault));
            return Status::from(fault);
        }
    }
    let device = match start(alloc, port) {
        Ok(device) => device,
        Err(fault) => return Status::from(fault),
    };
    let answer = serve_with(alloc, port, device, turns);
    *cause = session_cause(&answer);
    session_status(&answer)
}
