//! Why a disk is no device.

use std::alloc::{AllocError, AllocFailed};
use vab_bootctl::ControlFault;
use vab_bytes::Name36;
use vab_gate::DiskFault;

/// What is wrong with a disk: the first of these that holds, but for `NoMemory` and `Disk`.
#[derive(Clone, Copy, Debug, PartialEq, Eq)]
pub enum StartFault {
    /// So many sectors are needed, and there are fewer.
    TooSmall(u64, u64),
    /// Sector 2048 is no update mark of any phase, or one of physical partitions, which no device
    /// has yet; or, while an update is installed, ready or being merged, this sector is no status
    /// of a partition, or one of a partition that has one before.
    BadMark(u64),
    /// Sector 4 is no boot control.
    BadControl(ControlFault),
    /// The mark says that there are physical partitions, and sector 2113 holds no sizes of them, or
    /// the disk has fewer than 4120 sectors in front of them. No device has physical partitions
    /// yet, so this doesn't come.
    BadPhysical,
    /// Neither copy of the geometry passes, or the copies of the tables pass the end of `super`.
    BadGeometry,
    /// Neither copy of this slot's table is a table's text, or its block device doesn't lie in
    /// `super` behind the copies, or the target's block device or groups aren't the source's. The
    /// table of the slot that isn't the mark's is read while an update is installed or ready.
    BadTable(usize),
    /// The first partition, in the order of the table, that breaks a rule of a slot's own
    /// partitions, of an update's target or of a slot whose stores are merged; behind these, the
    /// first that is in the stores' group, where the target stands apart, or the store of an
    /// overlay that has a block twice or one of the slot's partitions.
    BadPartition(Name36),
    /// A status has this name, and there is no such partition with a store, or the store holds no
    /// list of exceptions as long as the status says, in chunks of the status's size. While the
    /// store is merged the list may be shorter. A status of an image in place is one of a partition
    /// without a store, where the target stands apart or the slot is merged. Or the store over this
    /// partition holds no list of exceptions in chunks of one block, or has one behind the list's
    /// end in the page of that.
    BadStore(Name36),
    /// 1: the current slot has no images, which can't be while an update is ready. 2: the mark's
    /// slot has priority 0 or isn't successful, or an update is ready and its target is current and
    /// has priority 0. 3: an update is ready or being merged, and a partition that it writes has no
    /// status. 4: a slot is overlaid, and not exactly one partition of the stores' group is the
    /// store of one of the slot's.
    BadState(u8),
    /// Memory was refused.
    NoMemory,
    /// The disk failed.
    Disk(DiskFault),
}

impl From<DiskFault> for StartFault {
    ghost use Rattle.std.specs.Prelude.{◌≡◌};
    ghost use Rattle.vab_device.specs.declared.fault.StartFault.TheVariants.{Disk};

    ghost from_gives = { λ x e. e ≡ Disk x };

    fn from(fault: DiskFault) -> Self {
        StartFault::Disk(fault)
    }
}

impl From<AllocError> for StartFault {
    ghost use Rattle.std.specs.Prelude.{◌≡◌};
    ghost use Rattle.vab_device.specs.declared.fault.StartFault.TheVariants.{NoMemory};

    ghost from_gives = { λ _ e. e ≡ NoMemory };

    fn from(_: AllocError) -> Self {
        StartFault::NoMemory
    }
}

impl<T: Drop> From<AllocFailed<T>> for StartFault {
    ghost use Rattle.std.specs.Prelude.{◌≡◌};
    ghost use Rattle.vab_device.specs.declared.fault.StartFault.TheVariants.{NoMemory};

    ghost from_gives = { λ _ e. e ≡ NoMemory };

    fn from(_: AllocFailed<T>) -> Self {
        StartFault::NoMemory
    }
}

impl From<vab_tables::NoMemory> for StartFault {
    ghost use Rattle.std.specs.Prelude.{◌≡◌};
    ghost use Rattle.vab_device.specs.declared.fault.StartFault.TheVariants.{NoMemory};

    ghost from_gives = { λ _ e. e ≡ NoMemory };

    fn from(_: vab_tables::NoMemory) -> Self {
        StartFault::NoMemory
    }
}

impl From<vab_disk::NoMemory> for StartFault {
    ghost use Rattle.std.specs.Prelude.{◌≡◌};
    ghost use Rattle.vab_device.specs.declared.fault.StartFault.TheVariants.{NoMemory};

    ghost from_gives = { λ _ e. e ≡ NoMemory };

    fn from(_: vab_disk::NoMemory) -> Self {
        StartFault::NoMemory
    }
}
