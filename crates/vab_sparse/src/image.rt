//! The whole file.

ghost use Rattle.std.specs.Prelude.{◌≡◌, ◌≤◌, length, [], IfOk};
ghost use Rattle.vab_sparse.specs.Reading.{Gives, ended, chunks_of, image_of, within};

use crate::chunk::read_chunk;
use crate::content::put_chunk;
use crate::fault::SparseFault;
pub use crate::head::is_sparse;
use crate::head::{Head, read_head};
use std::alloc::Global;
use vab_bytes::crc32;

// What is asked of the image and the file behind the last chunk.
#[tactic(auto, unfolding(crate::specs::Reading::ended))]
fn end(
    head: &Head,
    file: &[u8],
    image: Vec<u8>,
    left: u32,
    at: usize,
) -> Result<Vec<u8>, SparseFault>
    ensures { Gives (λ v. v.items) result (ended head.now file.now image.items left at) }
{
    if left > 0 {
        return Err(SparseFault::TooFewBlocks(left));
    }
    if at < file.len() {
        return Err(SparseFault::Trailing(at));
    }
    if head.checksum != 0 && head.checksum != crc32(&image) {
        return Err(SparseFault::BadChecksum);
    }
    Ok(image)
}

// The image of all chunks, behind nothing.
fn read_chunks(head: &Head, file: &[u8], empty: Vec<u8>) -> Result<Vec<u8>, SparseFault>
    requires inside { head.now.size ≤ length file.now }
    requires header { 12 ≤ head.now.chunk_header }
    requires empty { empty.items ≡ [] }
    ensures { Gives (λ v. v.items) result
        (chunks_of head.now.chunks head.now file.now [] head.now.blocks head.now.size) }
{
    let mut image = empty;
    let mut left = head.blocks;
    let mut at = usize::from(head.size);
    for _ in 0..head.chunks {
        let chunk = read_chunk(head, file, left, at)?;
        put_chunk(head, file, at, &chunk, &mut image)?;
        left -= chunk.blocks;
        at += chunk.size as usize;
    }
    end(head, file, image, left, at)
}

// The image, where it has at most so many bytes.
#[tactic(auto, unfolding(crate::specs::Reading::within))]
fn within(image: Vec<u8>, most: u64) -> Result<Vec<u8>, SparseFault>
    ensures read { Gives (λ v. v.items) result (within most image.items) }
    ensures bound { IfOk result (λ v. length v.items ≤ most) }
{
    let bytes = image.len() as u64;
    if bytes > most {
        return Err(SparseFault::TooLarge(bytes));
    }
    Ok(image)
}

/// The image of at most so many bytes that a sparse file stands for. Its memory is taken at once,
/// when the header says that it isn't larger.
#[tactic(auto, unfolding(crate::specs::Reading::image_of))]
pub fn expand(alloc: Global, file: &[u8], most: u64) -> Result<Vec<u8>, SparseFault>
    // It is the file's image, or the first fault, unless memory is refused.
    ensures exact { Gives (λ v. v.items) result (image_of most file.now) }
    ensures bound { IfOk result (λ v. length v.items ≤ most) }
{
    let head = read_head(file, most)?;
    let bytes = u64::from(head.blocks) * u64::from(head.block);
    let empty = Vec::with_capacity(alloc, bytes as usize)?;
    let image = read_chunks(&head, file, empty)?;
    within(image, most)
}
