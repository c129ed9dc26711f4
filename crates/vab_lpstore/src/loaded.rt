//! What is loaded of a slot's table, and why none is.

use vab_bytes::Bytes;
use vab_copies::ReadFault;
use vab_gate::DiskFault;
use vab_tables::{Table, TableFault};

/// A slot's table, its text, and which of its two copies hold this text. What stands behind the
/// text in a copy is not looked at.
#[derive(Drop)]
pub struct Loaded {
    pub table: Table,
    pub text: Bytes,
    pub primary: bool,
    pub backup: bool,
}

/// Why a slot's table is not loaded.
#[derive(Clone, Copy, Debug, PartialEq, Eq)]
pub enum LoadFault {
    /// Neither copy is a table's text: the primary's fault and the backup's.
    BothBad(TableFault, TableFault),
    /// Memory was refused.
    NoMemory,
    /// The disk has failed.
    Disk(DiskFault),
}

impl From<ReadFault> for LoadFault {
    ghost use Rattle.std.specs.Prelude.{◌≡◌};
    ghost use Rattle.vab_lpstore.specs.Faults.{fault_of};

    ghost from_gives = { λ x e. e ≡ fault_of x };

    fn from(fault: ReadFault) -> Self {
        match fault {
            ReadFault::Disk => LoadFault::Disk(DiskFault),
            ReadFault::Memory => LoadFault::NoMemory,
        }
    }
}
