//! The blocks of a `super` block device that partitions have, and those that are free.
//!
//! A block is 4096 bytes, 8 sectors of 512 bytes. The blocks of a device are numbered from its
//! first logical sector on: block 0 is its first 8 sectors. Lists of blocks are kept as runs of
//! consecutive numbers, so that what is done with them takes time by the number of runs.
#![tactic(auto)]

mod blocks;
mod of_table;
mod runs;

pub use blocks::Blocks;
pub use runs::Runs;
