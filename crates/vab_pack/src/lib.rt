//! Words that ask for a set of images, and the images that are made for them.
#![tactic(auto)]

mod amount;
mod entry;
mod fault;
mod front;
mod image;
mod words;

pub use entry::Entry;
pub use fault::WordFault;
pub use image::set_image;
pub use words::{parse_word, parse_words};
