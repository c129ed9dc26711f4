//! What is written over a partition and read in its place.

ghost use Rattle.std.specs.Prelude.{◌≡◌, ◌≤◌, ◌^◌, ◌==◌, IfOk};
ghost use Rattle.std.specs.List.{list_any};
ghost use Rattle.vab_model.specs.Over.{with_block, put_block, written_over};

use crate::staged::{behind, front};
use std::alloc::Global;
use vab_bytes::{Bytes, Listing};
use vab_model::{NoMemory, Overlay};

// Whether this block is one of these.
fn is_among(block: u64, blocks: &[u64]) -> bool
    ensures { result ≡ list_any (λ b. b == block) blocks.now }
{
    blocks.iter().any(|b| *b == block)
}

// These blocks and this one, each once.
fn with_block(alloc: Global, block: u64, blocks: &[u64]) -> Result<Listing<u64>, NoMemory>
    ensures { IfOk result (λ x. x ≡ with_block block blocks.now) }
{
    let mut next = Vec::from_slice(alloc, blocks)?;
    if !is_among(block, blocks) {
        next.push(block)?;
    }
    Ok(Listing::from_vec(next))
}

// A copy of bytes with these in place of those of a block.
fn put_block(alloc: Global, bytes: &[u8], block: u64, from: &[u8]) -> Result<Bytes, NoMemory>
    requires { block ≤ 2 ^ 28 }
    ensures { IfOk result (λ x. x ≡ put_block bytes.now block from.now) }
{
    let at = 4096 * block as usize;
    let mut next = Vec::from_slice(alloc, front(bytes, at))?;
    next.extend_from_slice(from)?;
    next.extend_from_slice(behind(bytes, at + from.len()))?;
    Ok(Bytes::from_vec(next))
}

/// The overlay with a block written over the partition.
pub(crate) fn written_over(
    alloc: Global,
    overlay: &Overlay,
    block: u64,
    from: &[u8],
) -> Result<Overlay, NoMemory>
    requires { block ≤ 2 ^ 28 }
    ensures { IfOk result (λ o. o ≡ written_over block from.now overlay.now) }
{
    Ok(Overlay {
        name: overlay.name,
        store: overlay.store,
        blocks: with_block(alloc, block, overlay.blocks.as_slice())?,
        bytes: put_block(alloc, overlay.bytes.as_slice(), block, from)?,
    })
}
