//! Installing the set of images that the input spells.
ghost use Rattle.std.specs.Prelude.{◌≡◌, ◌≢◌, ◌⊎◌, ◌+◌, [], ◌∷◌, IfOk, IsErrOf};
ghost use Rattle.vab_disk.specs.Disk.{DiskFailed, SinkFailed, SourceFailed};
ghost use Rattle.vab_set.specs.Spelling.{IsSet};
ghost use Rattle.vab_device.specs.Kept.{IsDevice};
ghost use Rattle.vab_device.specs.Mounted.{Mounted, count_at, mounted_on};
ghost use Rattle.vab_device.specs.Reading.{IsIn, Represents};
ghost use Rattle.vab_commands.specs.Touched.{ChangesDevice};
ghost use Rattle.vab_cli.specs.Acts.{PerformsActs, install_act};
ghost use Rattle.vab_cli.specs.Causes.{IsNoDevice, IsNoSet, IsUninstalled, IsUninstalledOn};
ghost use Rattle.vab_commands.specs.Copies.{HasBothCopies};
ghost use Rattle.vab_cli.specs.Copies.{IsAnswered};
ghost use Rattle.vab_cli.specs.Counts.{IsSteady};
ghost use Rattle.vab_cli.specs.Installing.{Installs, left_behind};
ghost use Rattle.vab_cli.specs.Written.{WritesInOrder};
ghost use Rattle.vab_update.specs.Install.{install_orders};
ghost use Rattle.vab_update.specs.Written.{OrdersDone};

use crate::Status;
use crate::acts::ended;
use crate::line::{NOT_A_DEVICE, installed_line, refused_line};
use crate::making::MAX_SET;
use crate::noting::note_installing;
use crate::opening::open;
use crate::telling::say_line;
use arrayvec::ArrayVec;
use std::alloc::Global;
use vab_causes::Cause;
use vab_device::Device;
use vab_disk::{Disk, Port};
use vab_input::hear_all;
use vab_merging::left;
use vab_model::Refusal;
use vab_set::{Set, read_set};
use vab_update::Stop;

/// Installs a set on the device that is open, and tells its line. The device is answered where it
/// is done.
pub(crate) fn install_set<P: Port>(
    alloc: Global,
    port: &mut P,
    device: Device,
    set: &Set,
    cause: &mut Option<Cause>,
) -> Result<Device, Status>
    requires set { IsSet set.now }
    requires kept { IsDevice device (P.size port.old) }
    requires represents { P.is_modelled → Represents device (P.size port.old) (P.seen port.old) }
    ensures performs { PerformsActs P.Disk device (install_act set.now ∷ [])
        port.old port.new result }
    ensures changes { P.is_modelled → ChangesDevice P.Disk device port.old port.new }
    // Its commands write in turn.
    ensures writes { P.is_modelled
        → WritesInOrder P.Disk device
        (install_orders device.control.current set.now) port.old port.new }
    ensures done { P.is_modelled
        → IfOk result (λ last. OrdersDone P.is_modelled (P.size port.old) device (P.seen port.old)
        (install_orders device.control.current set.now) last (P.seen port.new)) }
    // So many blocks are left to merge.
    ensures left { P.is_modelled
        → (s : Mounted)
        → IsIn (P.size port.old) s (P.seen port.old)
        → IfOk result (λ next. count_at next.a + count_at next.b ≡ left_behind s set.now) }
    ensures refused { P.is_modelled
        → IsErrOf result Status.Refused
        → IsUninstalledOn (mounted_on device (P.seen port.old)) set.now cause.new }
{
    let mut line = ArrayVec::new();
    let mut at = None;
    let refusal = match vab_update::install(alloc, port, device, set, &mut at) {
        Ok(device) => {
            installed_line(set.len() as u64, left(&device), &mut line);
            return match say_line(port, line.as_slice()) {
                Ok(()) => Ok(device),
                Err(status) => Err(status),
            };
        }
        Err(Stop::Disk(_)) => return Err(Status::Disk),
        Err(Stop::Refused(refusal)) => refusal,
    };
    if refusal == Refusal::NoMemory {
        return Err(Status::NoMemory);
    }
    note_installing(&at, &refusal, cause);
    refused_line(refusal, &mut line);
    match say_line(port, line.as_slice()) {
        Ok(()) => Err(Status::Refused),
        Err(status) => Err(status),
    }
}

/// Opens the device, installs the set of images that the input spells into the slot that isn't
/// running, and tells how many it has, or why a command was refused.
pub(crate) fn install<P: Port>(alloc: Global, port: &mut P, cause: &mut Option<Cause>) -> Status
    ensures runs { Installs P.Disk port.old port.new result }
    // Where it is done or refused, or the input is malformed, both copies of each table agree.
    ensures copies { P.is_modelled
        → (s : Mounted)
        → IsIn (P.size port.old) s (P.seen port.old)
        → IsAnswered result
        → HasBothCopies (P.size port.old) (P.seen port.new) }
    ensures steady { IsSteady P.Disk port.old port.new result }
    ensures words { result ≢ Status.Usage }
    ensures disk { result ≡ Status.Disk → DiskFailed (P.faults port.old) (P.faults port.new) }
    ensures port { result ≡ Status.Port
        → SourceFailed (P.faults port.old) (P.faults port.new)
        ⊎ SinkFailed (P.faults port.old) (P.faults port.new) }
    // Where there is none, the cause is the first thing that is wrong with the disk.
    ensures unopened { P.is_modelled
        → result ≡ Status.NotADevice
        → IsNoDevice P.Disk port.old cause.new }
    // Where a command is refused, it is the refusal of the table of effects.
    ensures uninstalled { P.is_modelled
        → result ≡ Status.Refused
        → IsUninstalled P.Disk port.old cause.new }
    // Where the input is no set, it is too long, or the first thing that is wrong with it.
    ensures no_set { P.is_modelled → result ≡ Status.Malformed → IsNoSet P.Disk port.old cause.new }
{
    let device = match open(alloc, port, NOT_A_DEVICE, cause) {
        Ok(device) => device,
        Err(status) => return status,
    };
    let bytes = match hear_all(alloc, port, MAX_SET) {
        Ok(bytes) => bytes,
        Err(fault) => {
            *cause = Some(Cause::TooLong);
            return Status::from(fault);
        }
    };
    let set = match read_set(alloc, &bytes) {
        Ok(set) => set,
        Err(fault) => {
            *cause = Some(Cause::Set(fault));
            return Status::from(fault);
        }
    };
    ended(install_set(alloc, port, device, &set, cause))
}
