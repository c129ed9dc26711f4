//! Why a text is no table.

ghost use Rattle.std.specs.Prelude.{◌≡◌};
ghost use Rattle.vab_tables.specs.declared.fault.TableFault.TheVariants.{NoMemory};

use std::alloc::{AllocError, AllocFailed};

/// The four kinds of entries, in the order in which they are judged.
#[derive(Clone, Copy, Debug, PartialEq, Eq)]
pub enum EntryKind {
    Device,
    Group,
    Extent,
    Partition,
}

/// What is wrong with a text: the first of these that holds, but for `NoMemory`.
#[derive(Clone, Copy, Debug, PartialEq, Eq)]
pub enum TableFault {
    /// Fewer than 128 bytes, or another magic.
    NoHeader,
    /// Another major version than 10, a minor above 2, a header size that is not that of the minor,
    /// or a text that is shorter than its header.
    BadVersion,
    /// The SHA-256 sum of the header differs.
    BadHeaderSum,
    /// Header and tables are longer than the maximum or than the text.
    BadSize,
    /// The SHA-256 sum of the tables differs.
    BadTablesSum,
    /// A descriptor has another entry size, or its entries pass the end of the tables.
    BadBounds,
    /// The first entry that breaks a rule, and its index among those of its kind. A device that is
    /// missing has index 0; a second device has index 1.
    BadEntry(EntryKind, usize),
    /// Memory was refused.
    NoMemory,
}

/// Memory was refused.
#[derive(Clone, Copy, Debug, PartialEq, Eq)]
pub struct NoMemory;

impl From<AllocError> for TableFault {
    ghost from_gives = { λ _ e. e ≡ NoMemory };

    fn from(_: AllocError) -> Self {
        TableFault::NoMemory
    }
}

impl<T: Drop> From<AllocFailed<T>> for TableFault {
    ghost from_gives = { λ _ e. e ≡ NoMemory };

    fn from(_: AllocFailed<T>) -> Self {
        TableFault::NoMemory
    }
}

impl From<AllocError> for NoMemory {
    fn from(_: AllocError) -> Self {
        NoMemory
    }
}

impl<T: Drop> From<AllocFailed<T>> for NoMemory {
    fn from(_: AllocFailed<T>) -> Self {
        NoMemory
    }
}
