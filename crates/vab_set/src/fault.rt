//! Why bytes are no set.

ghost use Rattle.std.specs.Prelude.{◌≡◌};
ghost use Rattle.vab_set.specs.declared.fault.SetFault.TheVariants as faults;

use std::alloc::{AllocError, AllocFailed};

/// What is wrong with the bytes of a set: the first of these from left to right, but for
/// `NoMemory`. Images are counted from 0.
#[derive(Clone, Copy, Debug, PartialEq, Eq)]
pub enum SetFault {
    /// Fewer than 8 bytes, or another magic.
    BadMagic,
    /// More images than a slot has partitions, 64, and how many.
    TooMany(u32),
    /// The name of an image is not 1 to 30 bytes of `A-Z a-z 0-9 _ .`.
    BadName(usize),
    /// The first image and the second have one name.
    Repeated(usize, usize),
    /// The partition is larger than 2^40 bytes, or shorter than the image's bytes.
    TooBig(usize),
    /// The bytes end in a field of an image, or, with 0, in the count.
    Cut(usize),
    /// Bytes stand behind the last image.
    Trailing,
    /// Memory was refused.
    NoMemory,
}

/// Memory was refused.
#[derive(Clone, Copy, Debug, PartialEq, Eq)]
pub struct NoMemory;

impl From<AllocError> for SetFault {
    ghost from_gives = { λ _ e. e ≡ faults.NoMemory };

    fn from(_: AllocError) -> Self {
        SetFault::NoMemory
    }
}

impl<T: Drop> From<AllocFailed<T>> for SetFault {
    ghost from_gives = { λ _ e. e ≡ faults.NoMemory };

    fn from(_: AllocFailed<T>) -> Self {
        SetFault::NoMemory
    }
}

impl From<AllocError> for NoMemory {
    fn from(_: AllocError) -> Self {
        NoMemory
    }
}

impl<T: Drop> From<AllocFailed<T>> for NoMemory {
    fn from(_: AllocFailed<T>) -> Self {
        NoMemory
    }
}
