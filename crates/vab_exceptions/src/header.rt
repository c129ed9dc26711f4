//! The header of a store.

ghost use Rattle.std.specs.Prelude.{◌≡◌, Ok};
ghost use Rattle.vab_exceptions.specs.Header.{header_of, header_bytes};

use vab_bytes::{le32_at, put_le32};
use vab_space::Chunk;

/// The bytes `SnAp`.
const MAGIC: u32 = 0x7041_6E53;

const VERSION: u32 = 1;

/// Why a store's header is refused.
#[derive(Clone, Copy, Debug, PartialEq, Eq)]
pub enum HeaderFault {
    /// The first four bytes are not the magic.
    BadMagic,
    /// The store says that it is not valid.
    Invalid,
    /// The version is not 1.
    BadVersion,
    /// The chunk size is not 8, 16 or 32 sectors.
    BadChunk,
}

/// The size of the chunks of the exception store that this sector begins: four numbers of four
/// bytes, the low byte first. They are the magic, whether the store is valid, the version 1, and
/// the chunk size in sectors, 8, 16 or 32.
/// The first fault in this order is told. Bytes behind them are not looked at.
pub fn decode_store_header(bytes: &[u8; 512]) -> Result<Chunk, HeaderFault>
    ensures { result ≡ header_of bytes.now }
{
    if le32_at(bytes, 0) != MAGIC {
        return Err(HeaderFault::BadMagic);
    }
    if le32_at(bytes, 4) == 0 {
        return Err(HeaderFault::Invalid);
    }
    if le32_at(bytes, 8) != VERSION {
        return Err(HeaderFault::BadVersion);
    }
    Chunk::from_sectors(u64::from(le32_at(bytes, 12))).ok_or(HeaderFault::BadChunk)
}

/// The header of a valid store, and zeros behind it.
pub fn encode_store_header(chunk: Chunk) -> [u8; 512]
    ensures bytes { result ≡ header_bytes chunk }
    ensures read { header_of result ≡ Ok chunk }
{
    let mut bytes = [0; 512];
    put_le32(&mut bytes, 0, MAGIC);
    put_le32(&mut bytes, 4, 1);
    put_le32(&mut bytes, 8, VERSION);
    put_le32(&mut bytes, 12, chunk.sectors() as u32);
    bytes
}
