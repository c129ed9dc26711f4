//! The staged bytes become the image of a planned partition, and what a physical one keeps.
#![tactic(auto)]

mod chosen;
mod flashing;
mod found;
mod in_place;
mod keeping;
mod plan;

pub use flashing::flash;
pub use keeping::keep;
