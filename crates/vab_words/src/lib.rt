//! The words of the command line of `vab`, behind the device's: a verb with its options and
//! operands.
#![tactic(auto)]

mod command;
mod complaint;
mod spelled;
mod values;
mod verb;

pub use complaint::{Complaint, Value, complaint_of};
pub use spelled::spelled_out;
pub use verb::{Verb, WordsFault, parse_words};
