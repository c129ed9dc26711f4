//! What is found of a part of a disk.

ghost use Rattle.std.specs.Prelude.{◌↔◌, IsTrue};
ghost use Rattle.vab_device.specs.Faults.{IsOfContents, IsOfDisk};
ghost use Rattle.vab_survey.specs.Findings.{Finds};

use vab_device::StartFault;

/// What is found of a part of a disk.
#[derive(Clone, Copy, Debug, PartialEq, Eq)]
pub enum Finding {
    /// It is read, and keeps its rules.
    Fine,
    /// What is wrong with it.
    Wrong(StartFault),
    /// It can't be judged: a part that it rests on is wrong.
    Unread,
}

/// Whether a fault is one of what the disk holds, and not of the disk or of memory.
pub(crate) fn is_of_contents(fault: &StartFault) -> bool
    ensures is { IsTrue result ↔ IsOfContents fault.now }
    ensures other { IsTrue result → IsOfDisk fault.now → ⊥ }
{
    match fault {
        StartFault::TooSmall(_, _) => true,
        StartFault::BadMark(_) => true,
        StartFault::BadControl(_) => true,
        StartFault::BadPhysical => true,
        StartFault::BadGeometry => true,
        StartFault::BadTable(_) => true,
        StartFault::BadPartition(_) => true,
        StartFault::BadStore(_) => true,
        StartFault::BadState(_) => true,
        StartFault::NoMemory => false,
        StartFault::Disk(_) => false,
    }
}

/// What is found of a part that was read so.
pub(crate) fn finding_of<T>(read: &Result<T, StartFault>) -> Finding
    ensures { Finds result read.now }
{
    match read {
        Ok(_) => Finding::Fine,
        Err(fault) => Finding::Wrong(*fault),
    }
}
