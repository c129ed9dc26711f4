//! Exception stores on the blocks of a partition: the kernel's dm-snapshot persistent store,
//! version 1, with chunks of one, two or four blocks of 4096 bytes.
//!
//! Chunk 0 is the header, chunk 1 is an area of entries, the chunks of data of those entries
//! follow, and so on. Each block of an area is a page of 256 entries.
#![tactic(auto)]

mod fault;
mod free;
mod index;
mod steps;
mod view;
mod writer;

pub use fault::StoreFault;
pub use steps::Steps;
pub use view::StoreView;
pub use writer::{image_block, write_store};
