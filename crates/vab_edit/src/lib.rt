//! Edits of the target's table while an update is installed.
#![tactic(auto)]

mod carry;
mod command;
mod guard;
mod prepared;

pub use command::edit;
