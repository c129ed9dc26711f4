//! Why a disk is not adopted.

use vab_device::StartFault;
use vab_gate::DiskFault;

/// Why a disk is not adopted: the first of these that holds. Want of memory, or a disk that fails,
/// comes as `NoDevice` of that.
#[derive(Clone, Copy, Debug, PartialEq, Eq)]
pub enum AdoptFault {
    /// It is a device.
    AlreadyDevice,
    /// With the heads of a device without an update it is none: there are too few sectors, or no
    /// geometry, or no table of the slot, or a partition of the slot breaks a rule.
    NoDevice(StartFault),
}

impl From<StartFault> for AdoptFault {
    ghost use Rattle.std.specs.Prelude.{◌≡◌};
    ghost use Rattle.vab_adopt.specs.declared.fault.AdoptFault.TheVariants.{NoDevice};

    ghost from_gives = { λ x e. e ≡ NoDevice x };

    fn from(fault: StartFault) -> Self {
        AdoptFault::NoDevice(fault)
    }
}

impl From<DiskFault> for AdoptFault {
    ghost use Rattle.std.specs.Prelude.{◌≡◌};
    ghost use Rattle.vab_adopt.specs.declared.fault.AdoptFault.TheVariants.{NoDevice};
    ghost use Rattle.vab_device.specs.declared.fault.StartFault.TheVariants.{Disk};

    ghost from_gives = { λ x e. e ≡ NoDevice (Disk x) };

    fn from(fault: DiskFault) -> Self {
        AdoptFault::NoDevice(StartFault::Disk(fault))
    }
}
