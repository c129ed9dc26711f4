//! A port over a file or over sectors in memory, and any pair of streams. It is the trusted edge:
//! it tells counts alone.
#![tactic(auto)]

mod cells;
mod file_store;
mod pages;
mod port;

pub use port::{FilePort, OpenFault};
