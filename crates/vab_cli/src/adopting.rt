//! Adopting a disk whose `super` somebody else has written.
ghost use Rattle.std.specs.Prelude.{◌≡◌, ◌≢◌, ◌⊎◌, ◌<◌, Some, None, Ok, false};
ghost use Rattle.vab_disk.specs.Disk.{DiskFailed, SinkFailed};
ghost use Rattle.vab_disk.specs.Calls.{Changes};
ghost use Rattle.vab_device.specs.Mounted.{Mounted};
ghost use Rattle.vab_adopt.specs.declared.fault.AdoptFault.{AdoptFault as Refusal};
ghost use Rattle.vab_adopt.specs.Adopted.{adopted, adopt_refusal};
ghost use Rattle.vab_adopt.specs.Adopting.{IsOfAdopting};
ghost use Rattle.vab_adopt.specs.Dropped.{dropped};
ghost use Rattle.vab_lines.specs.Lines.{adopted_line};
ghost use Rattle.vab_cli.specs.Adopting.{RunsAdopting, adopt_line, is_silent};
ghost use Rattle.vab_cli.specs.Causes.{IsUnadopted, dropped_cause};
ghost use Rattle.vab_cli.specs.Codes.{adopt_status};
ghost use Rattle.vab_cli.specs.Counts.{HearsNothing, IsSteady};
ghost use Rattle.vab_cli.specs.Runs.{IsFailed, RunsUnwritten};
ghost use Rattle.vab_cli.specs.Telling.{Tells};

use crate::Status;
use crate::line::{ALREADY_DEVICE, NOT_A_DEVICE};
use crate::making::tell;
use crate::noting::note_dropped;
use arrayvec::ArrayVec;
use std::alloc::Global;
use vab_adopt::{AdoptFault, Adopted, adopt_device};
use vab_causes::Cause;
use vab_device::StartFault;
use vab_disk::{Disk, Port};
use vab_lines::adopted_line;

// Tells that a disk is adopted.
fn tell_adopted<P: Port>(port: &mut P, adopted: &Adopted) -> Status
    ensures tells { P.is_modelled
        → Tells P.Disk (adopted_line adopted.now.images adopted.now.blocks adopted.now.cap)
        Status.Done port.old port.new result }
    ensures size { P.size port.new ≡ P.size port.old }
    ensures either { (result ≡ Status.Done) ⊎ (result ≡ Status.Port) }
    ensures steady { IsSteady P.Disk port.old port.new result }
    ensures port { result ≢ Status.Done → SinkFailed (P.faults port.old) (P.faults port.new) }
{
    let mut line = ArrayVec::new();
    adopted_line(adopted.images, adopted.blocks, adopted.cap, &mut line);
    tell(port, line.as_slice(), Status::Done)
}

// Whether nothing is told of a fault.
fn is_silent(fault: &AdoptFault) -> bool
    ensures { result ≡ is_silent fault.now }
{
    match fault {
        AdoptFault::NoDevice(StartFault::NoMemory | StartFault::Disk(_)) => true,
        AdoptFault::AlreadyDevice | AdoptFault::NoDevice(_) => false,
    }
}

// Tells why a disk isn't adopted.
fn tell_unadopted<P: Port>(port: &mut P, fault: AdoptFault) -> Status
    ensures tells { P.is_modelled
        → is_silent fault ≡ false
        → Tells P.Disk (adopt_line fault) (adopt_status fault) port.old port.new result }
    ensures size { P.size port.new ≡ P.size port.old }
    ensures either { (result ≡ adopt_status fault) ⊎ (result ≡ Status.Port) }
    ensures steady { IsSteady P.Disk port.old port.new result }
    ensures port { result ≢ adopt_status fault
        → SinkFailed (P.faults port.old) (P.faults port.new) }
{
    let status = Status::from(fault);
    match &fault {
        AdoptFault::AlreadyDevice => tell(port, ALREADY_DEVICE, status),
        AdoptFault::NoDevice(_) => tell(port, NOT_A_DEVICE, status),
    }
}

/// Adopts the disk as the device of this slot's table, and tells how much it has, or why not.
pub(crate) fn adopt<P: Port>(
    alloc: Global,
    port: &mut P,
    slot: usize,
    cause: &mut Option<Cause>,
) -> Status
    requires { slot < 2 }
    ensures adopts { P.is_modelled
        → (first : Mounted)
        → adopted (P.size port.old) slot (P.seen port.old) ≡ Ok first
        → adopt_refusal (P.size port.old) slot (P.seen port.old) ≡ None
        → RunsAdopting P.Disk (P.size port.old) slot first port.old port.new result }
    ensures refused { P.is_modelled
        → (fault : Refusal)
        → adopt_refusal (P.size port.old) slot (P.seen port.old) ≡ Some fault
        → RunsUnwritten P.Disk (P.size port.old) IsFailed (adopt_line fault) (adopt_status fault)
        port.old port.new result }
    ensures changes { P.is_modelled
        → Changes P.Disk (IsOfAdopting slot (P.seen port.old)) port.old port.new }
    ensures quiet { P.is_modelled → HearsNothing P.Disk port.old port.new }
    ensures steady { IsSteady P.Disk port.old port.new result }
    ensures words { result ≢ Status.Usage }
    ensures read { result ≢ Status.Malformed }
    ensures disk { result ≡ Status.Disk → DiskFailed (P.faults port.old) (P.faults port.new) }
    ensures port { result ≡ Status.Port → SinkFailed (P.faults port.old) (P.faults port.new) }
    // Where it isn't adopted, the cause is the first refusal.
    ensures unadopted { P.is_modelled
        → (result ≡ Status.NotADevice) ⊎ (result ≡ Status.Refused)
        → IsUnadopted P.Disk port.old slot cause.new }
    // Where it is, the update or overlay that was there, if there was one.
    ensures dropped { P.is_modelled
        → result ≡ Status.Done
        → cause.new ≡ dropped_cause (dropped (P.seen port.old)) }
{
    let fault = match adopt_device(alloc, port, slot) {
        Ok(adopted) => {
            note_dropped(&adopted.dropped, cause);
            return tell_adopted(port, &adopted);
        }
        Err(fault) => fault,
    };
    *cause = Some(Cause::Adopting(fault));
    if is_silent(&fault) {
        return Status::from(fault);
    }
    tell_unadopted(port, fault)
}
