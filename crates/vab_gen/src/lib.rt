//! Sets of images that are made from a number, to try a device with.
#![tactic(auto)]

mod bytes;
mod draws;
mod image;
mod set;

pub use set::{next_scaled, next_set, set_from, set_scaled};
