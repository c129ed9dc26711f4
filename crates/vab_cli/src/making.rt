//! Making a device of the set of images that the input spells.
ghost use Rattle.std.specs.Prelude.{◌≡◌, ◌≢◌, ◌⊎◌, ◌≤◌, ◌<◌, ◌%◌, ◌^◌, [], List, length};
ghost use Rattle.std.specs.Prelude.{Some, None, Ok, Err, true};
ghost use Rattle.vab_disk.specs.Disk.{DiskFailed, SinkFailed, SourceFailed};
ghost use Rattle.vab_disk.specs.Calls.{Changes, InSectors};
ghost use Rattle.vab_set.specs.Spelling.{IsSet};
ghost use Rattle.vab_set.specs.Reading.{set_of};
ghost use Rattle.vab_set.specs.declared.set.SetImage.{SetImage as ImageOfSet};
ghost use Rattle.vab_set.specs.declared.fault.SetFault.{SetFault as FaultOfSet};
ghost use Rattle.vab_make.specs.declared.fault.MakeFault.{MakeFault as FaultOfMaking};
ghost use Rattle.vab_make.specs.Made.{refusal_of};
ghost use Rattle.vab_make.specs.Touched.{IsOfMaking};
ghost use Rattle.vab_cli.specs.Causes.{IsNoSet, IsUnmade, IsUnmadeOfInput};
ghost use Rattle.vab_cli.specs.Codes.{make_status};
ghost use Rattle.vab_cli.specs.Counts.{IsSteady};
ghost use Rattle.vab_cli.specs.Verbs.{is_silent, make_line, done_making};
ghost use Rattle.vab_cli.specs.Runs.{RunsRefused, RunsMaking};
ghost use Rattle.vab_cli.specs.Telling.{Tells};
ghost use Rattle.vab_cli.specs.Counts.{HearsUnless};
ghost use Rattle.vab_input.specs.HearsToEnd.{HearsWithin};

use crate::Status;
use crate::line::NOT_A_DEVICE;
use arrayvec::ArrayVec;
use std::alloc::Global;
use vab_causes::Cause;
use vab_disk::{Disk, Port};
use vab_exchanges::say_all;
use vab_input::hear_all;
use vab_lines::{made_line, make_refused_line};
use vab_make::{MakeFault, capacity, make_device, set_blocks};
use vab_set::{Set, read_set};

/// The most bytes of a set.
pub(crate) const MAX_SET: u64 = 1 << 32;

/// Tells a line, and ends with the status.
pub(crate) fn tell<P: Port>(port: &mut P, line: &[u8], status: Status) -> Status
    requires { status ≢ Status.Port }
    ensures tells { P.is_modelled → Tells P.Disk line.now status port.old port.new result }
    ensures size { P.size port.new ≡ P.size port.old }
    ensures either { (result ≡ status) ⊎ (result ≡ Status.Port) }
    ensures steady { IsSteady P.Disk port.old port.new result }
    ensures port { result ≢ status → SinkFailed (P.faults port.old) (P.faults port.new) }
{
    match say_all(port, line) {
        Ok(()) => status,
        Err(_) => Status::Port,
    }
}

/// Tells that a device is made.
pub(crate) fn tell_made<P: Port>(port: &mut P, set: &Set) -> Status
    requires set { IsSet set.now }
    requires size { 6152 ≤ P.size port.old }
    ensures tells { P.is_modelled
        → Tells P.Disk (done_making set.now (P.size port.old)) Status.Done
        port.old port.new result }
    ensures size { P.size port.new ≡ P.size port.old }
    ensures either { (result ≡ Status.Done) ⊎ (result ≡ Status.Port) }
    ensures steady { IsSteady P.Disk port.old port.new result }
    ensures port { result ≢ Status.Done → SinkFailed (P.faults port.old) (P.faults port.new) }
{
    let mut line = ArrayVec::new();
    made_line(
        set.len() as u64,
        set_blocks(set),
        capacity(port.sectors()),
        &mut line,
    );
    tell(port, line.as_slice(), Status::Done)
}

// Whether nothing is told of a fault.
fn is_silent(fault: &MakeFault) -> bool
    ensures { result ≡ is_silent fault.now }
{
    match fault {
        MakeFault::NoMemory | MakeFault::Disk(_) => true,
        MakeFault::TooSmall(_, _)
        | MakeFault::GroupLimit(_, _)
        | MakeFault::NoRoom(_, _)
        | MakeFault::TableFull(_, _) => false,
    }
}

// Tells why no device is made.
fn tell_fault<P: Port>(port: &mut P, fault: MakeFault) -> Status
    ensures tells { P.is_modelled
        → Tells P.Disk (make_line fault) (make_status fault) port.old port.new result }
    ensures size { P.size port.new ≡ P.size port.old }
    ensures either { (result ≡ make_status fault) ⊎ (result ≡ Status.Port) }
    ensures steady { IsSteady P.Disk port.old port.new result }
    ensures port { result ≢ make_status fault
        → SinkFailed (P.faults port.old) (P.faults port.new) }
{
    let mut line = ArrayVec::new();
    match fault {
        MakeFault::TooSmall(_, _) => return tell(port, NOT_A_DEVICE, Status::from(fault)),
        MakeFault::NoMemory | MakeFault::Disk(_) => {}
        MakeFault::GroupLimit(_, _) | MakeFault::NoRoom(_, _) | MakeFault::TableFull(_, _) => {
            make_refused_line(&fault, &mut line)
        }
    }
    tell(port, line.as_slice(), Status::from(fault))
}

/// Tells why no device is made. Of want of memory and of a disk that failed nothing is told.
pub(crate) fn tell_unmade<P: Port>(port: &mut P, fault: MakeFault) -> Status
    ensures tells { P.is_modelled
        → Tells P.Disk (make_line fault) (make_status fault) port.old port.new result }
    ensures size { P.size port.new ≡ P.size port.old }
    ensures silent { is_silent fault ≡ true
        → (port.new ≡ port.old) × (result ≡ make_status fault) }
    ensures either { (result ≡ make_status fault) ⊎ (result ≡ Status.Port) }
    ensures steady { IsSteady P.Disk port.old port.new result }
    ensures port { result ≢ make_status fault
        → SinkFailed (P.faults port.old) (P.faults port.new) }
{
    if is_silent(&fault) {
        return Status::from(fault);
    }
    tell_fault(port, fault)
}

// Makes a device of a set, and tells that it is made, or why not.
fn make_of<P: Port>(
    alloc: Global,
    port: &mut P,
    set: &Set,
    limit: u64,
    max: u32,
    cause: &mut Option<Cause>,
) -> Status
    requires set { IsSet set.now }
    requires limit { limit ≤ 2 ^ 44 }
    requires max_sectors { max % 512 ≡ 0 }
    requires max_least { 512 ≤ max }
    requires max_most { max ≤ 65536 }
    ensures made { P.is_modelled
        → refusal_of set.now limit max (P.size port.old) ≡ None
        → RunsMaking P.Disk (P.size port.old) set.now limit max
        (done_making set.now (P.size port.old))
        port.old port.new result }
    ensures refused { P.is_modelled
        → (fault : FaultOfMaking)
        → refusal_of set.now limit max (P.size port.old) ≡ Some fault
        → RunsRefused P.Disk (P.size port.old) (make_line fault) (make_status fault)
        port.old port.new result }
    ensures changes { P.is_modelled
        → Changes P.Disk (InSectors (IsOfMaking set.now max)) port.old port.new }
    ensures left { P.is_modelled → P.input_left port.new ≡ P.input_left port.old }
    ensures heard { P.is_modelled → P.heard port.new ≡ P.heard port.old }
    ensures steady { IsSteady P.Disk port.old port.new result }
    ensures words { result ≢ Status.Usage }
    ensures disk { result ≡ Status.Disk → DiskFailed (P.faults port.old) (P.faults port.new) }
    ensures port { result ≡ Status.Port → SinkFailed (P.faults port.old) (P.faults port.new) }
    // Where none is made, the cause is the first refusal.
    ensures unmade { (result ≡ Status.NotADevice) ⊎ (result ≡ Status.Refused)
        → IsUnmade P.Disk port.old set.now limit max cause.new }
    ensures read { result ≢ Status.Malformed }
    // Where memory is refused nothing is done.
    ensures memory { result ≡ Status.NoMemory → port.new ≡ port.old }
    ensures small { result ≡ Status.NotADevice → P.size port.old < 6152 }
{
    let fault = match make_device(alloc, port, set, limit, max) {
        Ok(()) => return tell_made(port, set),
        Err(fault) => fault,
    };
    *cause = Some(Cause::Making(fault));
    if is_silent(&fault) {
        return Status::from(fault);
    }
    tell_fault(port, fault)
}

/// Makes a device of the set of images that the input spells, and tells that it is made, or why
/// not.
pub(crate) fn make<P: Port>(
    alloc: Global,
    port: &mut P,
    limit: u64,
    max: u32,
    cause: &mut Option<Cause>,
) -> Status
    requires limit { limit ≤ 2 ^ 44 }
    requires max_sectors { max % 512 ≡ 0 }
    requires max_least { 512 ≤ max }
    requires max_most { max ≤ 65536 }
    ensures made { P.is_modelled
        → (set : List ImageOfSet)
        → length (P.input_left port.old) ≤ 2 ^ 32
        → set_of (P.input_left port.old) ≡ Ok set
        → refusal_of set limit max (P.size port.old) ≡ None
        → RunsMaking P.Disk (P.size port.old) set limit max (done_making set (P.size port.old))
        port.old port.new result }
    ensures refused { P.is_modelled
        → (set : List ImageOfSet)
        → length (P.input_left port.old) ≤ 2 ^ 32
        → set_of (P.input_left port.old) ≡ Ok set
        → (fault : FaultOfMaking)
        → refusal_of set limit max (P.size port.old) ≡ Some fault
        → RunsRefused P.Disk (P.size port.old) (make_line fault) (make_status fault)
        port.old port.new result }
    ensures malformed { P.is_modelled
        → (2 ^ 32 < length (P.input_left port.old))
        ⊎ ((fault : FaultOfSet) × (set_of (P.input_left port.old) ≡ Err fault))
        → RunsRefused P.Disk (P.size port.old) [] Status.Malformed port.old port.new result }
    ensures changes { P.is_modelled
        → (set : List ImageOfSet)
        → set_of (P.input_left port.old) ≡ Ok set
        → Changes P.Disk (InSectors (IsOfMaking set max)) port.old port.new }
    // Once it is done the whole input was heard.
    ensures end { P.is_modelled → result ≡ Status.Done → P.input_left port.new ≡ [] }
    // It is heard to its end, where it isn't too long.
    ensures heard { P.is_modelled
        → HearsUnless (P.input_left port.old) (P.heard port.old) (P.heard port.new) result }
    // And not beyond it, whatever comes of it.
    ensures within { P.is_modelled → HearsWithin (P.heard port.old) (P.heard port.new) }
    ensures steady { IsSteady P.Disk port.old port.new result }
    ensures words { result ≢ Status.Usage }
    ensures disk { result ≡ Status.Disk → DiskFailed (P.faults port.old) (P.faults port.new) }
    ensures port { result ≡ Status.Port
        → SourceFailed (P.faults port.old) (P.faults port.new)
        ⊎ SinkFailed (P.faults port.old) (P.faults port.new) }
    // On fewer sectors alone there is no device.
    ensures small { result ≡ Status.NotADevice → P.size port.old < 6152 }
    // Where none is made of a set, the cause is the first refusal.
    ensures unmade { P.is_modelled
        → (result ≡ Status.NotADevice) ⊎ (result ≡ Status.Refused)
        → IsUnmadeOfInput P.Disk port.old limit max cause.new }
    // Where the input is no set, it is too long, or the first thing that is wrong with it.
    ensures no_set { P.is_modelled → result ≡ Status.Malformed → IsNoSet P.Disk port.old cause.new }
{
    let bytes = match hear_all(alloc, port, MAX_SET) {
        Ok(bytes) => bytes,
        Err(fault) => {
            *cause = Some(Cause::TooLong);
            return Status::from(fault);
        }
    };
    let set = match read_set(alloc, &bytes) {
        Ok(set) => set,
        Err(fault) => {
            *cause = Some(Cause::Set(fault));
            return Status::from(fault);
        }
    };
    make_of(alloc, port, &set, limit, max, cause)
}
