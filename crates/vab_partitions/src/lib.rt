//! The rules of a slot's own partitions (their names, sizes and groups, how many there are, and
//! that no block stands twice), of an update's target with its stores, and of a slot whose stores
//! are merged; the partition of a slot that has a store while there is no update.
#![tactic(auto)]

mod beside;
mod extents;
mod merging;
mod overlay;
mod own;
mod target;
mod twins;

pub use merging::bad_merging;
pub use overlay::{Overlay, is_apart, overlaid};
pub use own::bad_partition;
pub use target::bad_target;
pub use twins::{has_twins, same_device};
pub use vab_names::MAX_PARTITIONS;
