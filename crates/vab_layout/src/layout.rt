//! Partitions as lists of blocks.

ghost use Rattle.std.specs.Prelude.{◌≡◌};
ghost use Rattle.vab_layout.specs.Slots.{twins_by};

use vab_blocks::Blocks;
use vab_bytes::{Listing, Name36};
use vab_tables::{BlockDevice, Group};

/// A logical partition with its blocks.
#[derive(Drop)]
pub struct Part {
    pub name: Name36,
    /// Bits: 1 read-only, 4 updated, 8 disabled.
    pub attributes: u32,
    /// The name of its group.
    pub group: Name36,
    /// The numbers of its blocks, in its order; contracts see the list of them.
    pub blocks: Blocks,
}

/// A table, with the blocks of each partition in place of extents. Contracts see its lists as
/// lists.
#[derive(Drop)]
pub struct Layout {
    pub parts: Listing<Part>,
    pub groups: Listing<Group>,
    pub device: BlockDevice,
    /// 1: a device with Virtual A/B.
    pub flags: u32,
}

impl Layout {
    /// The partitions of a source that those of an update's target may share blocks with: all of
    /// them, or none where the update stands `apart`.
    pub fn twins(&self, apart: bool) -> &[Part]
        ensures { result.now ≡ twins_by apart self.now.parts }
    {
        let parts = self.parts.as_slice();
        if apart { &parts[..0] } else { parts }
    }
}
