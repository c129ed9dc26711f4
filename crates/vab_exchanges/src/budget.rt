//! How many bytes a session may take.
ghost use Rattle.std.specs.Prelude.{◌≡◌, ◌+◌, ◌-◌, ◌≤◌};

/// The bytes taken so far, of the most that there may be.
#[derive(Clone, Copy, Debug)]
pub(crate) struct Budget {
    pub(crate) taken: u64,
    pub(crate) most: u64,
    ghost within: { taken ≤ most },
}

impl Budget {
    /// None taken yet.
    pub(crate) fn new(most: u64) -> Budget
        ensures taken { result.taken ≡ 0 }
        ensures most { result.most ≡ most }
    {
        Budget { taken: 0, most }
    }

    /// How many may still be taken.
    pub(crate) fn room(&self) -> u64
        ensures { result ≡ self.now.most - self.now.taken }
    {
        self.most - self.taken
    }

    /// Takes so many more.
    pub(crate) fn take(&mut self, count: u64)
        requires { count ≤ self.old.most - self.old.taken }
        ensures taken { self.new.taken ≡ self.old.taken + count }
        ensures most { self.new.most ≡ self.old.most }
    {
        self.taken += count;
    }
}
