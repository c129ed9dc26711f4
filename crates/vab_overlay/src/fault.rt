//! Why a block isn't written.

use vab_disk::NoMemory;
use vab_gate::DiskFault;

/// Why a block isn't written into a store.
#[derive(Clone, Copy, Debug, PartialEq, Eq)]
pub enum OverlayFault {
    /// With one exception more the store would take the first number of blocks. It has the second.
    Full(u64, u64),
    /// Memory was refused, before anything was written.
    NoMemory,
    /// The disk has failed.
    DiskFault,
}

impl From<NoMemory> for OverlayFault {
    ghost use Rattle.std.specs.Prelude.{◌≡◌};
    ghost use Rattle.vab_overlay.specs.declared.fault.OverlayFault.TheVariants as faults;

    ghost from_gives = { λ _ fault. fault ≡ faults.NoMemory };

    fn from(_: NoMemory) -> Self {
        OverlayFault::NoMemory
    }
}

impl From<DiskFault> for OverlayFault {
    ghost use Rattle.std.specs.Prelude.{◌≡◌};
    ghost use Rattle.vab_overlay.specs.declared.fault.OverlayFault.TheVariants as faults;

    ghost from_gives = { λ _ fault. fault ≡ faults.DiskFault };

    fn from(_: DiskFault) -> Self {
        OverlayFault::DiskFault
    }
}
