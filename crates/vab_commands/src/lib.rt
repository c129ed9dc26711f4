//! One command on a device: what it writes, and its reply.
#![tactic(auto)]

mod command;

pub use command::run_one;
