//! Staged bytes as an image.

ghost use Rattle.std.specs.Prelude.{◌≡◌, ◌≤◌, ◌<◌, ◌*◌, ◌^◌, length, take, drop, IfOk};
ghost use Rattle.vab_space.specs.Chunks.{chunks_for};
ghost use Rattle.vab_space.specs.Differing.{any_differs, chunk_differs};
ghost use Rattle.vab_model.specs.Staged.{filled, block_at, differs, differences};

use crate::count::blocks_in;
use std::alloc::Global;
use vab_model::NoMemory;
use vab_space::Chunk;

/// The staged bytes with zeros behind them, as so many blocks.
#[tactic(auto, using(crate::proofs::Blocks::zeros_more))]
pub(crate) fn filled(alloc: Global, staged: &[u8], blocks: u64) -> Result<Vec<u8>, NoMemory>
    requires blocks { blocks ≤ 2 ^ 28 }
    requires fits { length staged.now ≤ 4096 * blocks }
    ensures { IfOk result (λ image. image.items ≡ filled staged.now blocks) }
{
    let mut image = Vec::from_slice(alloc, staged)?;
    for _at in staged.len()..4096 * blocks as usize {
        image.push(0)?;
    }
    Ok(image)
}

/// The bytes from a place on, where there are any.
pub(crate) fn behind(bytes: &[u8], at: usize) -> &[u8]
    ensures { result.now ≡ drop at bytes.now }
{
    if at < bytes.len() { &bytes[at..] } else { &[] }
}

/// So many bytes, or as many as there are.
pub(crate) fn front(bytes: &[u8], count: usize) -> &[u8]
    ensures { result.now ≡ take count bytes.now }
{
    if count < bytes.len() {
        &bytes[..count]
    } else {
        bytes
    }
}

// The bytes of block i, as many as there are.
fn block_at(bytes: &[u8], i: u64) -> &[u8]
    requires { i < 2 ^ 52 }
    ensures { result.now ≡ block_at bytes.now i }
{
    front(behind(bytes, 4096 * i as usize), 4096)
}

// Whether block i isn't the source's, or the source has none.
fn differs(source: &[u8], image: &[u8], i: u64) -> bool
    requires { i < 2 ^ 40 }
    ensures { result ≡ differs source.now image.now i }
{
    let is_same = i < blocks_in(source) && block_at(source, i) == block_at(image, i);
    !is_same
}

// Whether one of these blocks differs that is below so many.
fn any_differs(source: &[u8], image: &[u8], blocks: u64, those: &[u64]) -> bool
    requires { blocks ≤ 2 ^ 28 }
    ensures { result ≡ any_differs (differs source.now image.now) blocks those.now }
{
    those
        .iter()
        .any(|block| *block < blocks && differs(source, image, *block))
}

// Whether a block of chunk c differs that is below so many.
fn chunk_differs(source: &[u8], image: &[u8], blocks: u64, chunk: Chunk, c: u64) -> bool
    requires blocks { blocks ≤ 2 ^ 28 }
    requires one { c < chunks_for chunk blocks }
    ensures { result ≡ chunk_differs chunk (differs source.now image.now) blocks c }
{
    match chunk {
        Chunk::One => differs(source, image, c),
        Chunk::Two => any_differs(source, image, blocks, &[2 * c, 2 * c + 1]),
        Chunk::Four => {
            let those = [4 * c, 4 * c + 1, 4 * c + 2, 4 * c + 3];
            any_differs(source, image, blocks, &those)
        }
    }
}

/// How many chunks of so many blocks differ.
#[tactic(auto, using(crate::proofs::Blocks::passing_count))]
pub(crate) fn differences(source: &[u8], image: &[u8], blocks: u64, chunk: Chunk) -> u64
    requires { blocks ≤ 2 ^ 28 }
    ensures exact { result ≡ differences chunk source.now image.now blocks }
    ensures most { result ≤ blocks }
{
    let mut count = 0;
    for c in 0..chunk.chunks_for(blocks) {
        if chunk_differs(source, image, blocks, chunk, c) {
            count += 1;
        }
    }
    count
}
