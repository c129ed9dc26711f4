//! An overlay over a partition of the current slot: it begins, a block is written over the
//! partition, and it is dropped.
#![tactic(auto)]

mod beginning;
mod discarding;
mod prepared;
mod writing;

pub use beginning::overlay;
pub use discarding::overlay_discard;
pub use writing::overlay_write;
