//! The header of the file.

ghost use Rattle.std.specs.Prelude.{◌≡◌, ◌≤◌, length, IfOk};
ghost use Rattle.vab_sparse.specs.Reading.{Gives, head_of, is_sparse};

use crate::fault::SparseFault;
use vab_bytes::{le16_at, le32_at};

// 0xED26FF3A, the low byte first.
const MAGIC: &[u8; 4] = b"\x3a\xff\x26\xed";

/// What the header says: sizes in bytes of itself, of a chunk's header and of a block, how many
/// blocks the image has, how many chunks the file, and the image's checksum or 0.
#[derive(Clone, Copy, Drop)]
pub struct Head {
    pub size: u16,
    pub chunk_header: u16,
    pub block: u32,
    pub blocks: u32,
    pub chunks: u32,
    pub checksum: u32,
}

/// Whether a file begins with the magic of a sparse image.
#[tactic(auto, unfolding(crate::specs::Reading::is_sparse))]
pub fn is_sparse(file: &[u8]) -> bool
    ensures { result ≡ is_sparse file.now }
{
    file.len() >= 4 && file.starts_with(MAGIC)
}

/// The header at the file's front, of an image of at most so many bytes.
#[tactic(auto, unfolding(crate::specs::Reading::head_of))]
pub(crate) fn read_head(file: &[u8], most: u64) -> Result<Head, SparseFault>
    ensures read { Gives (λ h. h) result (head_of most file.now) }
    ensures inside { IfOk result (λ h. h.size ≤ length file.now) }
    ensures chunk { IfOk result (λ h. 12 ≤ h.chunk_header) }
    ensures block { IfOk result (λ h. 4 ≤ h.block) }
{
    if !is_sparse(file) {
        return Err(SparseFault::NotSparse);
    }
    if file.len() < 28 {
        return Err(SparseFault::Cut(0));
    }
    let head = Head {
        size: le16_at(file, 8),
        chunk_header: le16_at(file, 10),
        block: le32_at(file, 12),
        blocks: le32_at(file, 16),
        chunks: le32_at(file, 20),
        checksum: le32_at(file, 24),
    };
    let version = le16_at(file, 4);
    if version != 1 {
        return Err(SparseFault::BadVersion(version));
    }
    if head.size < 28 {
        return Err(SparseFault::BadHeader(head.size));
    }
    if head.chunk_header < 12 {
        return Err(SparseFault::BadChunkHeader(head.chunk_header));
    }
    if head.block < 4 || head.block % 4 != 0 {
        return Err(SparseFault::BadBlock(head.block));
    }
    let bytes = u64::from(head.blocks) * u64::from(head.block);
    if bytes > most {
        return Err(SparseFault::TooLarge(bytes));
    }
    if file.len() < usize::from(head.size) {
        return Err(SparseFault::Cut(0));
    }
    Ok(head)
}
