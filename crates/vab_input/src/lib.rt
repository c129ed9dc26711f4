//! The whole input of a port.
#![tactic(auto)]

mod input;

pub use input::{InputFault, hear_all};
