//! The size of extents.

ghost use Rattle.std.specs.Prelude.{◌≡◌, ◌^◌, nat_le, length};
ghost use Rattle.std.specs.List.{flat_map};
ghost use Rattle.vab_blocks.specs.Blocks.{blocks_of_extent};

use vab_tables::{BLOCK_SECTORS, Extent};

/// The most blocks of a partition: 2^40 bytes.
const MAX_BLOCKS: u64 = 1 << 28;

/// Whether the extents have at most 2^28 blocks.
pub fn is_small(extents: &[Extent], first_sector: u64) -> bool
    ensures { result
        ≡ nat_le (length (flat_map (blocks_of_extent first_sector) extents.now)) (2 ^ 28) }
{
    let mut blocks = 0;
    for extent in extents {
        let more = extent.sectors / BLOCK_SECTORS;
        if more > MAX_BLOCKS - blocks {
            return false;
        }
        blocks += more;
    }
    true
}
