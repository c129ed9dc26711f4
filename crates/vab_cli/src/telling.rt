//! Telling a line.
ghost use Rattle.std.specs.Prelude.{◌≡◌, IfErr, OnOk, OnErr};
ghost use Rattle.vab_disk.specs.Disk.{SinkFailed};
ghost use Rattle.vab_cli.specs.Telling.{Says};

use crate::Status;
use vab_disk::{Disk, Port};
use vab_exchanges::say_all;

/// Tells a line. The error is the status to end with.
pub(crate) fn say_line<P: Port>(port: &mut P, line: &[u8]) -> Result<(), Status>
    ensures says { P.is_modelled → Says P.Disk line.now port.old port.new result }
    ensures size { P.size port.new ≡ P.size port.old }
    ensures failed { IfErr result (λ status. status ≡ Status.Port) }
    ensures steady { OnOk result (P.faults port.new ≡ P.faults port.old) }
    ensures port { OnErr result (SinkFailed (P.faults port.old) (P.faults port.new)) }
{
    match say_all(port, line) {
        Ok(()) => Ok(()),
        Err(_) => Err(Status::Port),
    }
}
