//! Why a store is refused.

use vab_disk::NoMemory;
use vab_exceptions::HeaderFault;
use vab_gate::DiskFault;

/// Why no exceptions are read from a partition. Of several reasons the first in the store is told.
#[derive(Clone, Copy, Debug, PartialEq, Eq)]
pub enum StoreFault {
    /// The header is refused.
    Header(HeaderFault),
    /// The old chunk of this exception is not below the bound, or its new chunk is no data chunk of
    /// the store.
    BadChunk(u64),
    /// These two exceptions share an old or a new chunk: the least such second one, with the least
    /// first one.
    Repeated(u64, u64),
    /// The partition has fewer than two chunks, or it ends where a list of exceptions goes on.
    Unended,
    /// Memory was refused.
    NoMemory,
    /// The disk has failed.
    DiskFault,
}

impl From<NoMemory> for StoreFault {
    ghost use Rattle.std.specs.Prelude.{◌≡◌};
    ghost use Rattle.vab_store.specs.declared.fault.StoreFault.TheVariants as faults;

    ghost from_gives = { λ _ fault. fault ≡ faults.NoMemory };

    fn from(_: NoMemory) -> Self {
        StoreFault::NoMemory
    }
}

impl From<DiskFault> for StoreFault {
    ghost use Rattle.std.specs.Prelude.{◌≡◌};
    ghost use Rattle.vab_store.specs.declared.fault.StoreFault.TheVariants as faults;

    ghost from_gives = { λ _ fault. fault ≡ faults.DiskFault };

    fn from(_: DiskFault) -> Self {
        StoreFault::DiskFault
    }
}
