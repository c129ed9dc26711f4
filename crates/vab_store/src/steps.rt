//! A count of comparisons.

ghost use Rattle.std.specs.Prelude.{◌≡◌, ◌+◌, ◌-◌, ◌^◌, ◌<◌, min};

use std::cmp::Ordering;
use std::marker::Model;
use std::sync::ledger::{Blank, Book, Ledger, Share};

/// How many comparisons of old chunks were made: for contracts the sum of a ledger, which takes no
/// bytes, and beside it a number that a program can read.
#[derive(Drop)]
pub struct Steps<L: Ledger> {
    book: Book<L>,
    share: Share<L>,
    made: u64,
}

impl<L: Ledger> Model for Steps<L> {
    ghost use Rattle.std.specs.Prelude.{◌≡◌, ℕ, ◌-◌, ◌^◌, ◌<◌, min};

    ghost Value = { ℕ };

    ghost view = { λ s. s.book.total };

    ghost invariant = { λ s. (0 < s.share.parts)
        × (s.made ≡ min s.book.total (2 ^ 64 - 1)) };
}

impl<L: Ledger> Steps<L> {
    ghost use Rattle.std.specs.Ordering.{nat_cmp};

    /// No comparison yet, on a ledger that nothing else counts on.
    pub fn new(blank: Blank) -> Self
        requires name { blank.name ≡ L.name }
        requires parts { blank.parts ≡ L.parts }
        requires some { 0 < L.parts }
        ensures { result ≡ 0 }
    {
        let (book, share) = blank.open();
        Steps {
            book,
            share,
            made: 0,
        }
    }

    /// The count, or 2^64 - 1 where it is larger.
    pub fn made(&self) -> u64
        ensures { result ≡ min self.now (2 ^ 64 - 1) }
    {
        self.made
    }

    /// Compares two old chunks, which is one step.
    pub(crate) fn compare(&mut self, a: u64, b: u64) -> Ordering
        ensures value { result ≡ nat_cmp a b }
        ensures step { self.new ≡ self.old + 1 }
    {
        self.book.add(&mut self.share, 1);
        self.made = self.made.saturating_add(1);
        a.cmp(&b)
    }
}
