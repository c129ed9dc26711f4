// What a port in memory hears.
ghost use Rattle.std.specs.Prelude.{◌≡◌, ◌<◌, ℕ, slice_index};

/// The bytes of the input.
#[derive(Drop)]
pub(crate) struct Input {
    pub(crate) bytes: Vec<u8>,
    ghost small: { (k : ℕ) → slice_index bytes.items k < 256 },
}

impl Input {
    /// The input of these bytes.
    pub(crate) fn new(bytes: Vec<u8>) -> Input
        ensures { result.bytes.items ≡ bytes.items }
    {
        Input { bytes }
    }
}
