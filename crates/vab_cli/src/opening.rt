//! Opening the device of the disk.
ghost use Rattle.std.specs.Prelude.{◌≡◌, ◌≢◌, IfOk, IfErr, OnOk, IsErrOf, Ok, Err};
ghost use Rattle.vab_disk.specs.Disk.{DiskFailed, SinkFailed};
ghost use Rattle.vab_disk.specs.Calls.{Changes};
ghost use Rattle.vab_device.specs.declared.fault.StartFault.{StartFault as Fault};
ghost use Rattle.vab_device.specs.Kept.{IsDevice};
ghost use Rattle.vab_device.specs.Mounted.{Mounted};
ghost use Rattle.vab_device.specs.Reading.{device, IsIn, Represents};
ghost use Rattle.vab_recover.specs.Opening.{IsOfOpening};
ghost use Rattle.vab_cli.specs.Causes.{IsNoDevice};
ghost use Rattle.vab_cli.specs.Counts.{HearsNothing, IsSteady};
ghost use Rattle.vab_cli.specs.Opening.{Opens};
ghost use Rattle.vab_cli.specs.Runs.{FailsBefore, RunsNone};

use crate::Status;
use crate::making::tell;
use crate::noting::note_opening;
use std::alloc::Global;
use vab_causes::Cause;
use vab_device::Device;
use vab_disk::{Disk, Port};
use vab_recover::start;

/// Opens the device of the disk. Where there is none, it tells the line; the error is the status to
/// end with.
pub(crate) fn open<P: Port>(
    alloc: Global,
    port: &mut P,
    line: &[u8],
    cause: &mut Option<Cause>,
) -> Result<Device, Status>
    ensures kept { IfOk result (λ d. IsDevice d (P.size port.old)) }
    ensures represents { P.is_modelled
        → IfOk result (λ d. Represents d (P.size port.old) (P.seen port.new)) }
    ensures opens { P.is_modelled
        → OnOk result (Opens P.Disk (P.size port.old) port.old port.new) }
    ensures early { P.is_modelled
        → (s : Mounted)
        → IsIn (P.size port.old) s (P.seen port.old)
        → IfErr result
        (λ status. FailsBefore P.Disk (P.size port.old) s port.old port.new status) }
    ensures none { P.is_modelled
        → (fault : Fault)
        → device (P.size port.old) (P.seen port.old) ≡ Err fault
        → IfErr result
        (λ status. RunsNone P.Disk (P.size port.old) line.now port.old port.new status) }
    ensures found { P.is_modelled
        → (fault : Fault)
        → device (P.size port.old) (P.seen port.old) ≡ Err fault
        → OnOk result ⊥ }
    ensures size { P.size port.new ≡ P.size port.old }
    ensures quiet { P.is_modelled → HearsNothing P.Disk port.old port.new }
    ensures changes { P.is_modelled
        → Changes P.Disk (IsOfOpening (P.size port.old) (P.seen port.old)) port.old port.new }
    ensures steady { OnOk result (P.faults port.new ≡ P.faults port.old) }
    ensures held { IfErr result (IsSteady P.Disk port.old port.new) }
    ensures words { IfErr result (λ status. status ≢ Status.Usage) }
    ensures disk { IsErrOf result Status.Disk
        → DiskFailed (P.faults port.old) (P.faults port.new) }
    ensures port { IsErrOf result Status.Port
        → SinkFailed (P.faults port.old) (P.faults port.new) }
    // Where there is none, the cause is the first thing that is wrong with the disk.
    ensures unopened { P.is_modelled
        → IsErrOf result Status.NotADevice
        → IsNoDevice P.Disk port.old cause.new }
{
    let status = match start(alloc, port) {
        Ok(device) => return Ok(device),
        Err(fault) => {
            note_opening(&fault, cause);
            Status::from(fault)
        }
    };
    if status != Status::NotADevice {
        return Err(status);
    }
    Err(tell(port, line, Status::NotADevice))
}
