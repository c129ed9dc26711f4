//! Why words ask for no set.

ghost use Rattle.std.specs.Prelude.{◌≡◌};
ghost use Rattle.vab_pack.specs.declared.fault.WordFault.TheVariants as faults;

use std::alloc::{AllocError, AllocFailed};

/// What is wrong with the words: too many of them, or else the first of these from left to right,
/// but for `NoMemory`. Words are counted from 0.
#[derive(Clone, Copy, Debug, PartialEq, Eq)]
pub enum WordFault {
    /// More words than a set has images, 64, and how many.
    TooMany(usize),
    /// The word has no `=`, or nothing behind its first one.
    BadWord(usize),
    /// What stands before the word's first `=` and first `:` is not 1 to 30 bytes of
    /// `A-Z a-z 0-9 _ .`.
    BadName(usize),
    /// The first word and the second have one name.
    Repeated(usize, usize),
    /// The size is not 1 to 20 decimal digits, with K, M or G behind them or not, or above 2^40;
    /// nor is it left out before a store.
    BadSize(usize),
    /// The store is not 1 to 20 decimal digits, with K, M or G behind them or not, or not below
    /// 2^64.
    BadStore(usize),
    /// Memory was refused.
    NoMemory,
}

impl From<AllocError> for WordFault {
    ghost from_gives = { λ _ e. e ≡ faults.NoMemory };

    fn from(_: AllocError) -> Self {
        WordFault::NoMemory
    }
}

impl<T: Drop> From<AllocFailed<T>> for WordFault {
    ghost from_gives = { λ _ e. e ≡ faults.NoMemory };

    fn from(_: AllocFailed<T>) -> Self {
        WordFault::NoMemory
    }
}
