//! What boot control says of the slots.

/// What boot control says of one slot.
#[derive(Clone, Copy, Debug, PartialEq, Eq)]
pub struct Info {
    /// 0 (never booted) to 15.
    pub priority: u8,
    /// How many boots may still be tried, at most 7.
    pub tries: u8,
    /// Whether the slot has been marked as one that works.
    pub successful: bool,
}

/// The boot control of a device with the slots a and b.
#[derive(Clone, Copy, Debug, PartialEq, Eq)]
pub struct Control {
    /// The slot that was booted last: 0 for a, 1 for b.
    pub current: usize,
    pub a: Info,
    pub b: Info,
}
