//! The tables of logical partitions on a disk: each slot's stands in two copies, of which one is
//! always whole.
#![tactic(auto)]

mod judge;
mod layout;
mod load;
mod loaded;
mod repair;
mod store;

pub use load::load_table;
pub use loaded::{LoadFault, Loaded};
pub use repair::repair_table;
pub use store::store_table;
