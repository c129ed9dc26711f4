//! The statuses of an update's partitions, in 64 sectors of a disk: a sector for each. Where the
//! update mark has version 1, the first 32 are read alone.
#![tactic(auto)]

mod fault;
mod reading;
mod writing;

pub use fault::StatusFault;
pub use reading::{
    FIRST_STATUS, STATUS_SECTORS, Statuses, first_free, free_or_last, read_statuses,
};
pub use writing::{clear_statuses, put_status};
