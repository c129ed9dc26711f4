//! A partition as a list of blocks, each with the sector of the disk that it begins at.
#![tactic(auto)]

mod access;
mod map;

pub use access::{read_at, write_at};
pub use map::Map;
