//! The wipe of `super`: the partitions of a staged image of an empty `super` become those of the
//! current slot.
#![tactic(auto)]

mod prepared;
mod wiping;

pub use wiping::update_super;
