//! What is written once a device is opened: a mark of version 1 goes on as one of version 2, and a
//! merge that has ended is tidied by the table without stores, and then the mark of no update.
#![tactic(auto)]

mod carry;
mod migration;
mod prepared;

pub use carry::tidy_if_due;
pub use migration::migrate;
pub use prepared::{Alone, Tidying, prepare};
