//! The partitions of a table as lists of blocks, and the table of such lists.
//!
//! A block is 4096 bytes, 8 sectors of 512 bytes, numbered from the device's first logical sector.
#![tactic(auto)]

mod layout;
mod of_table;
mod to_table;

pub use layout::{Layout, Part};
