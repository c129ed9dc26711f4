//! The header of a chunk.

ghost use Rattle.std.specs.Prelude.{◌≡◌, ◌≤◌, ◌+◌, length, IfOk};
ghost use Rattle.vab_sparse.specs.Reading.{Gives, kind_of, data_size, blocks_of, chunk_of};

use crate::fault::SparseFault;
use crate::head::Head;
use vab_bytes::{le16_at, le32_at};

/// What a chunk has: the bytes of its blocks, four bytes that fill them, nothing, or the CRC-32 of
/// the image before it.
#[derive(Clone, Copy, Drop, PartialEq, Eq)]
pub enum Kind {
    Raw,
    Fill,
    DontCare,
    Sum,
}

/// A chunk: what it has, the blocks of the image that it stands for, and its bytes in the file.
#[derive(Clone, Copy, Drop)]
pub struct Chunk {
    pub kind: Kind,
    pub blocks: u32,
    pub size: u32,
}

#[tactic(auto, unfolding(crate::specs::Reading::kind_of))]
fn kind_of(code: u16) -> Option<Kind>
    ensures { result ≡ kind_of code }
{
    match code {
        0xcac1 => Some(Kind::Raw),
        0xcac2 => Some(Kind::Fill),
        0xcac3 => Some(Kind::DontCare),
        0xcac4 => Some(Kind::Sum),
        _ => None,
    }
}

// The bytes behind its header, of a chunk of so many blocks.
fn data_size(block: u32, kind: Kind, blocks: u32) -> u64
    ensures { result ≡ data_size block kind blocks }
{
    match kind {
        Kind::Raw => u64::from(blocks) * u64::from(block),
        Kind::Fill | Kind::Sum => 4,
        Kind::DontCare => 0,
    }
}

// A sum stands for no blocks, whatever its header says.
fn blocks_of(kind: Kind, blocks: u32) -> u32
    ensures { result ≡ blocks_of kind blocks }
{
    match kind {
        Kind::Sum => 0,
        _ => blocks,
    }
}

/// The chunk whose header begins at a place of the file, where so many blocks are left.
#[tactic(auto, unfolding(crate::specs::Reading::chunk_of))]
pub(crate) fn read_chunk(
    head: &Head,
    file: &[u8],
    left: u32,
    at: usize,
) -> Result<Chunk, SparseFault>
    requires inside { at ≤ length file.now }
    requires header { 12 ≤ head.now.chunk_header }
    ensures read { Gives (λ c. c) result (chunk_of head.now file.now left at) }
    ensures ends { IfOk result (λ c. at + c.size ≤ length file.now) }
    ensures size { IfOk result
        (λ c. c.size ≡ head.now.chunk_header + data_size head.now.block c.kind c.blocks) }
    ensures blocks { IfOk result (λ c. c.blocks ≤ left) }
{
    let header = usize::from(head.chunk_header);
    if file.len() - at < header {
        return Err(SparseFault::Cut(at));
    }
    let kind = match kind_of(le16_at(file, at)) {
        Some(kind) => kind,
        None => return Err(SparseFault::BadType(at)),
    };
    let blocks = blocks_of(kind, le32_at(file, at + 4));
    if blocks > left {
        return Err(SparseFault::TooManyBlocks(at));
    }
    let size = le32_at(file, at + 8);
    if u64::from(size) != u64::from(head.chunk_header) + data_size(head.block, kind, blocks) {
        return Err(SparseFault::BadSize(at));
    }
    if file.len() - at < size as usize {
        return Err(SparseFault::Cut(at));
    }
    Ok(Chunk { kind, blocks, size })
}
