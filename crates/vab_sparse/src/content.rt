//! What a chunk adds to the image.

ghost use Rattle.std.specs.Prelude.{◌≡◌, ◌≤◌, ◌+◌, ◌++◌, length, IfOk, OnOk};
ghost use Rattle.vab_sparse.specs.Reading.{Gives, data_size, image_behind, words_in, words_of};

use crate::chunk::{Chunk, Kind};
use crate::fault::SparseFault;
use crate::head::Head;
use std::alloc::AllocError;
use vab_bytes::{crc32, le32_at};

// Adds these four bytes so many times.
#[tactic(auto, using(crate::proofs::Loop::one_more, crate::proofs::Loop::no_more))]
fn put_words(image: &mut Vec<u8>, word: &[u8], count: u64) -> Result<(), AllocError>
    ensures { OnOk result (image.new.items ≡ image.old.items ++ words_of count word.now) }
{
    for _ in 0..count {
        image.extend_from_slice(word)?;
    }
    Ok(())
}

// How many words of four bytes the chunk's blocks have.
fn words(head: &Head, chunk: &Chunk) -> u64
    ensures { result ≡ words_in head.now chunk.now }
{
    u64::from(chunk.blocks) * u64::from(head.block) / 4
}

/// Adds to the image what the chunk at a place of the file stands for.
#[tactic(auto, unfolding(crate::specs::Reading::image_behind))]
pub(crate) fn put_chunk(
    head: &Head,
    file: &[u8],
    at: usize,
    chunk: &Chunk,
    image: &mut Vec<u8>,
) -> Result<(), SparseFault>
    requires ends { at + chunk.now.size ≤ length file.now }
    requires size { chunk.now.size
        ≡ head.now.chunk_header + data_size head.now.block chunk.now.kind chunk.now.blocks }
    ensures { Gives (λ _. image.new.items) result
        (image_behind head.now file.now at chunk.now image.old.items) }
{
    let data = &file[at + usize::from(head.chunk_header)..at + chunk.size as usize];
    match chunk.kind {
        Kind::Raw => image.extend_from_slice(data)?,
        Kind::Fill => put_words(image, data, words(head, chunk))?,
        Kind::DontCare => put_words(image, &[0; 4], words(head, chunk))?,
        Kind::Sum => {
            if le32_at(data, 0) != crc32(image) {
                return Err(SparseFault::BadSum(at));
            }
        }
    }
    Ok(())
}
