//! Why an edit is refused.

ghost use Rattle.std.specs.Prelude.{◌≡◌};
ghost use Rattle.vab_builder.specs.declared.fault.EditFault.TheVariants.{NoMemory};

use std::alloc::{AllocError, AllocFailed};

/// Why a table is not given: the first of these that holds, but for `NoMemory`.
#[derive(Clone, Copy, Debug, PartialEq, Eq)]
pub enum EditFault {
    /// The name is not 1 to 30 bytes of `A-Z a-z 0-9 _ .` and the target's suffix.
    BadName,
    /// More than 2^40 bytes, or a store of 1 to 4096 bytes.
    BadSize,
    /// The target has no such partition.
    Unknown,
    /// The target has a partition of this name.
    Exists,
    /// The partition has a store.
    HasStore,
    /// The target would have so many partitions, more than a slot may have.
    TooMany(u64),
    /// The partitions of its group would have so many bytes, more than the group's limit.
    GroupLimit(u64, u64),
    /// So many blocks would be in use, more than the device has.
    NoRoom(u64, u64),
    /// The table's text would have so many bytes, more than a copy may have.
    TableFull(u64, u32),
    /// Memory was refused.
    NoMemory,
}

impl From<vab_tables::NoMemory> for EditFault {
    ghost from_gives = { λ _ e. e ≡ NoMemory };

    fn from(_: vab_tables::NoMemory) -> Self {
        EditFault::NoMemory
    }
}

impl From<AllocError> for EditFault {
    ghost from_gives = { λ _ e. e ≡ NoMemory };

    fn from(_: AllocError) -> Self {
        EditFault::NoMemory
    }
}

impl<T: Drop> From<AllocFailed<T>> for EditFault {
    ghost from_gives = { λ _ e. e ≡ NoMemory };

    fn from(_: AllocFailed<T>) -> Self {
        EditFault::NoMemory
    }
}
