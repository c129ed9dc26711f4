//! A slot's own partitions as blocks on the disk, and the partitions of an update's target with
//! what their stores hold.
#![tactic(auto)]

mod partitions;
mod planning;

pub use partitions::{limits, map, part, parts};
pub use planning::{Scan, named, plan, store_map};
