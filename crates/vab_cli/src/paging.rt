//! The page of the device of the disk.
ghost use Rattle.std.specs.Prelude.{◌≡◌, ◌≢◌};
ghost use Rattle.vab_disk.specs.Disk.{DiskFailed, SinkFailed};
ghost use Rattle.vab_device.specs.Mounted.{Mounted};
ghost use Rattle.vab_device.specs.Reading.{IsIn};
ghost use Rattle.vab_cli.specs.Causes.{IsNoDevice};
ghost use Rattle.vab_commands.specs.Copies.{HasBothCopies};
ghost use Rattle.vab_cli.specs.Copies.{IsAnswered};
ghost use Rattle.vab_cli.specs.Counts.{IsSteady};
ghost use Rattle.vab_cli.specs.Paging.{TellsPage};

use crate::Status;
use crate::line::NOT_A_DEVICE;
use crate::opening::open;
use std::alloc::Global;
use vab_causes::Cause;
use vab_disk::{Disk, Port};
use vab_exchanges::say_all;
use vab_status::status_page;

/// Opens the device, and tells its page.
pub(crate) fn tell_page<P: Port>(alloc: Global, port: &mut P, cause: &mut Option<Cause>) -> Status
    ensures tells { TellsPage P.Disk port.old port.new result }
    // Where it is done, both copies of each table agree.
    ensures copies { P.is_modelled
        → (s : Mounted)
        → IsIn (P.size port.old) s (P.seen port.old)
        → IsAnswered result
        → HasBothCopies (P.size port.old) (P.seen port.new) }
    ensures steady { IsSteady P.Disk port.old port.new result }
    ensures words { result ≢ Status.Usage }
    ensures disk { result ≡ Status.Disk → DiskFailed (P.faults port.old) (P.faults port.new) }
    ensures port { result ≡ Status.Port → SinkFailed (P.faults port.old) (P.faults port.new) }
    // Where there is none, the cause is the first thing that is wrong with the disk.
    ensures unopened { P.is_modelled
        → result ≡ Status.NotADevice
        → IsNoDevice P.Disk port.old cause.new }
{
    let device = match open(alloc, port, NOT_A_DEVICE, cause) {
        Ok(device) => device,
        Err(status) => return status,
    };
    let page = match status_page(alloc, &device) {
        Ok(page) => page,
        Err(_) => return Status::NoMemory,
    };
    match say_all(port, &page) {
        Ok(()) => Status::Done,
        Err(_) => Status::Port,
    }
}
