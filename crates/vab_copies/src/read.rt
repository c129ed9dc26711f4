//! Reading a copy.

ghost use Rattle.std.specs.Prelude.{◌≡◌, ◌⊎◌, ◌≤◌, ◌+◌, ◌*◌, ℕ, List, length, IfOk, IsErrOf};
ghost use Rattle.vab_disk.specs.Disk.{DiskFailed};
ghost use Rattle.vab_disk.specs.Calls.{OnlyReads};
ghost use Rattle.vab_gate.specs.Gate.{sectors_at};

use std::alloc::{AllocError, Global};
use vab_disk::Disk;
use vab_gate::{DiskFault, SECTOR, get_sector};

/// The disk has failed, or memory was refused.
#[derive(Clone, Copy, Debug, PartialEq, Eq)]
pub enum ReadFault {
    Disk,
    Memory,
}

impl From<AllocError> for ReadFault {
    ghost use Rattle.vab_copies.specs.declared.read.ReadFault.TheVariants.{Memory};

    ghost from_gives = { λ _ e. e ≡ Memory };

    fn from(_: AllocError) -> Self {
        ReadFault::Memory
    }
}

impl From<DiskFault> for ReadFault {
    ghost use Rattle.vab_copies.specs.declared.read.ReadFault.TheVariants.{Disk};

    ghost from_gives = { λ _ e. e ≡ Disk };

    fn from(_: DiskFault) -> Self {
        ReadFault::Disk
    }
}

/// Reads `count` sectors from sector `at` on: 512 bytes for each.
pub fn read_text<D: Disk>(
    alloc: Global,
    d: &mut D,
    at: u64,
    count: u64,
) -> Result<Vec<u8>, ReadFault>
    requires { at + count ≤ D.size d.old }
    ensures text { D.is_modelled
        → IfOk result (λ text. text.items ≡ sectors_at count (D.seen d.old) at) }
    ensures long { IfOk result (λ text. length text.items ≡ 512 * count) }
    ensures reads { OnlyReads D.Disk d.old d.new }
    // Only where the disk has failed does a count rise, by one call.
    ensures steady { IsErrOf result ReadFault.Disk ⊎ (D.faults d.new ≡ D.faults d.old) }
    ensures cause { IsErrOf result ReadFault.Disk
        → DiskFailed (D.faults d.old) (D.faults d.new) }
{
    let mut text = Vec::new(alloc);
    for i in 0..count {
        let mut sector = [0u8; SECTOR];
        get_sector(d, at + i, &mut sector)?;
        text.extend_from_slice(&sector)?;
    }
    Ok(text)
}
