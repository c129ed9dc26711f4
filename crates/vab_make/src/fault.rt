//! Why a device is not made.

use std::alloc::{AllocError, AllocFailed};
use vab_gate::DiskFault;

/// Why a device is not made: the first of these that holds, but for `NoMemory` and `Disk`.
#[derive(Clone, Copy, Debug, PartialEq, Eq)]
pub enum MakeFault {
    /// So many sectors are needed, and there are fewer.
    TooSmall(u64, u64),
    /// The images have so many bytes in whole blocks, more than the limit of their group.
    GroupLimit(u64, u64),
    /// The images have so many blocks, more than there are.
    NoRoom(u64, u64),
    /// The table's text would have so many bytes, more than a copy may have.
    TableFull(u64, u32),
    /// Memory was refused.
    NoMemory,
    /// The disk failed.
    Disk(DiskFault),
}

impl From<AllocError> for MakeFault {
    ghost use Rattle.std.specs.Prelude.{◌≡◌};
    ghost use Rattle.vab_make.specs.declared.fault.MakeFault.TheVariants.{NoMemory};

    ghost from_gives = { λ _ e. e ≡ NoMemory };

    fn from(_: AllocError) -> Self {
        MakeFault::NoMemory
    }
}

impl<T: Drop> From<AllocFailed<T>> for MakeFault {
    ghost use Rattle.std.specs.Prelude.{◌≡◌};
    ghost use Rattle.vab_make.specs.declared.fault.MakeFault.TheVariants.{NoMemory};

    ghost from_gives = { λ _ e. e ≡ NoMemory };

    fn from(_: AllocFailed<T>) -> Self {
        MakeFault::NoMemory
    }
}

impl From<vab_tables::NoMemory> for MakeFault {
    ghost use Rattle.std.specs.Prelude.{◌≡◌};
    ghost use Rattle.vab_make.specs.declared.fault.MakeFault.TheVariants.{NoMemory};

    ghost from_gives = { λ _ e. e ≡ NoMemory };

    fn from(_: vab_tables::NoMemory) -> Self {
        MakeFault::NoMemory
    }
}

impl From<DiskFault> for MakeFault {
    ghost use Rattle.std.specs.Prelude.{◌≡◌};
    ghost use Rattle.vab_make.specs.declared.fault.MakeFault.TheVariants.{Disk};

    ghost from_gives = { λ x e. e ≡ Disk x };

    fn from(fault: DiskFault) -> Self {
        MakeFault::Disk(fault)
    }
}
