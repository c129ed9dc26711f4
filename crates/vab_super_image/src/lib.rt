//! An image of an empty `super`, as the packet `update-super` brings it: the block of a geometry,
//! and behind it the text of a partition table. AOSP's liblp writes such an image of a table
//! without extents (`WriteToImageFile`).
#![tactic(auto)]

mod empty;
mod image;

pub use empty::{first_filled, wiped};
pub use image::{SuperImage, read_super_image};
