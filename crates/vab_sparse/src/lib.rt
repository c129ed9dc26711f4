//! Android's sparse images, as libsparse reads them (AOSP `sparse_format.h`): the image that a file
//! stands for, or the first fault in it.
#![tactic(auto)]

mod chunk;
mod content;
mod fault;
mod head;
mod image;

pub use fault::SparseFault;
pub use image::{expand, is_sparse};
