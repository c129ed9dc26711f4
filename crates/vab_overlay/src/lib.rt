//! Blocks that are written into an exception store, to be read in place of the partition's own.
#![tactic(auto)]

mod data;
mod entry;
mod fault;
mod write;

pub use fault::OverlayFault;
pub use write::overlay_write;
