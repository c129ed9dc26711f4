//! The images of a set.

use crate::content::Content;
use vab_bytes::{Listing, Name36};

/// An image, and the partition that it is for. Sizes are in bytes.
#[derive(Drop)]
pub struct SetImage<'a> {
    /// The partition's name without a slot's suffix.
    pub name: Name36,
    /// The size of the partition.
    pub size: u64,
    /// The size of the store for its new blocks.
    pub store: u64,
    pub bytes: Content<'a>,
}

/// The images of a set, in their order; contracts see the list of them. An image that was read is a
/// part of the bytes that it was read from.
pub type Set<'a> = Listing<SetImage<'a>>;
