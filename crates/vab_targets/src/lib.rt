//! Laws on the target of an update: a flash finds a sector for its status, and what targets without
//! twins are and have in the end.
#![tactic(auto)]

mod apart;
mod statuses;
mod written;

pub use apart::targets_apart;
pub use statuses::finds_free_status;
pub use written::finishes_with_what_was_written;
