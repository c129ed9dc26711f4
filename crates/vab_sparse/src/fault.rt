//! Why a file is no sparse image.

ghost use Rattle.std.specs.Prelude.{◌≡◌};
ghost use Rattle.vab_sparse.specs.declared.fault.SparseFault.TheVariants as faults;

use std::alloc::AllocError;
use thiserror::Error;

/// What is wrong with a sparse image: the first of these from left to right, but for `NoMemory`. A
/// chunk's fault has the byte of the file at which the chunk's header begins.
#[derive(Clone, Copy, Debug, Drop, Error, PartialEq, Eq)]
pub enum SparseFault {
    /// It doesn't begin with the magic 0xED26FF3A.
    #[error("byte 0: no magic of a sparse image")]
    NotSparse,
    /// The file ends in the header at byte 0, or in the chunk at this byte.
    #[error("byte {0}: the file ends in what begins here")]
    Cut(usize),
    /// The major version isn't 1.
    #[error("byte 4: the major version is {0}, not 1")]
    BadVersion(u16),
    /// The header is shorter than 28 bytes.
    #[error("byte 8: a header of {0} bytes, fewer than 28")]
    BadHeader(u16),
    /// A chunk's header is shorter than 12 bytes.
    #[error("byte 10: a chunk's header of {0} bytes, fewer than 12")]
    BadChunkHeader(u16),
    /// A block's size is 0, or no multiple of 4.
    #[error("byte 12: blocks of {0} bytes, no multiple of 4")]
    BadBlock(u32),
    /// The image has more bytes than it may, and how many.
    #[error("byte 16: an image of {0} bytes is too large")]
    TooLarge(u64),
    /// A chunk is none of raw, fill, don't care and CRC-32.
    #[error("byte {0}: a chunk of no known type")]
    BadType(usize),
    /// A chunk has more blocks than are left of the image.
    #[error("byte {0}: a chunk of more blocks than are left")]
    TooManyBlocks(usize),
    /// A chunk has another total size than its type and its blocks ask for.
    #[error("byte {0}: a chunk whose size isn't that of its type")]
    BadSize(usize),
    /// The sum in a CRC-32 chunk isn't that of the image before it.
    #[error("byte {0}: the sum isn't that of the image before it")]
    BadSum(usize),
    /// Behind the last chunk so many blocks of the image are missing.
    #[error("behind the last chunk {0} blocks are missing")]
    TooFewBlocks(u32),
    /// The file goes on behind the last chunk, from this byte on.
    #[error("byte {0}: bytes behind the last chunk")]
    Trailing(usize),
    /// The image checksum is neither 0 nor the image's CRC-32.
    #[error("byte 24: the checksum isn't that of the image")]
    BadChecksum,
    /// Memory was refused.
    #[error("out of memory")]
    NoMemory,
}

impl From<AllocError> for SparseFault {
    ghost from_gives = { λ _ e. e ≡ faults.NoMemory };

    fn from(_: AllocError) -> Self {
        SparseFault::NoMemory
    }
}
