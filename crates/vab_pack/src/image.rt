//! The image that is made of a file's bytes.

ghost use Rattle.std.specs.Prelude.{◌≡◌, ◌≤◌, ◌^◌, length, IfSome};
ghost use Rattle.vab_set.specs.Spelling.{IsImage};
ghost use Rattle.vab_pack.specs.Asked.{IsAsked};
ghost use Rattle.vab_pack.specs.Images.{image_of, whole_blocks};

use crate::Entry;
use vab_set::{Content, SetImage};

/// Bytes of a block.
const BLOCK: u64 = 4096;

// The bytes of the fewest blocks that hold so many.
fn whole_blocks(bytes: u64) -> u64
    requires { bytes ≤ 2 ^ 40 }
    ensures { result ≡ whole_blocks bytes }
{
    bytes.div_ceil(BLOCK) * BLOCK
}

/// The image that an entry asks for, with a file's bytes: its partition has the size that is asked
/// for or else the file's length, in whole blocks of 4096 bytes, and its store the bytes that are
/// asked for; `None` where the partition doesn't hold the file.
#[tactic(auto, unfolding(crate::specs::Images::image_of))]
pub fn set_image(entry: &Entry<'_>, bytes: Vec<u8>) -> Option<SetImage<'static>>
    requires asked { IsAsked entry.now }
    requires short { length bytes.items ≤ 2 ^ 40 }
    ensures exact { result ≡ image_of entry.now bytes.items }
    // It can stand in a set.
    ensures fits { IfSome result IsImage }
{
    let len = bytes.len() as u64;
    let size = whole_blocks(entry.size().unwrap_or(len));
    if len > size {
        return None;
    }
    Some(SetImage {
        name: *entry.name(),
        size,
        store: entry.store(),
        bytes: Content::from_vec(bytes),
    })
}
