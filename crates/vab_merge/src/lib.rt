//! Merging an exception store back into its partition, run by run.
#![tactic(auto)]

mod clear;
mod copy;
mod merge;
mod run;

pub use merge::{Ran, run_turn, turn};
