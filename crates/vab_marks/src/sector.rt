//! What marks and statuses share: a sector with a magic, a version, fields, zeros and a sum.

ghost use Rattle.std.specs.Prelude.{◌≡◌, ◌≤◌, ◌<◌, ◌^◌, ◌+◌, length, take};
ghost use Rattle.vab_bytes.specs.Number.{put_at};
ghost use Rattle.vab_bytes.specs.Crc.{crc_of};
ghost use Rattle.vab_marks.specs.Sector.{zeros, are_zeros, sealed, head_fault};

use vab_bytes::{crc32, le32_at, put_le32};

/// How many bytes stand before the sum.
const SUMMED: usize = 508;

/// Why a sector is no mark or no status; the first that holds.
#[derive(Clone, Copy, Debug, PartialEq, Eq)]
pub enum MarkFault {
    /// The magic is another.
    BadMagic,
    /// The version is none that is known: 1 of a status, 1 or 2 of a mark.
    BadVersion,
    /// The sum is not that of the bytes before it.
    BadSum,
    /// A field has a value that has no meaning, or a byte is not zero where no field stands.
    BadField,
}

#[tactic(auto, unfolding(crate::specs::Sector::zeros))]
pub fn blank() -> [u8; 512]
    ensures { result ≡ zeros 512 }
{
    [0; 512]
}

pub fn are_zeros(bytes: &[u8]) -> bool
    ensures { result ≡ are_zeros bytes.now }
{
    bytes.iter().all(|b| *b == 0)
}

/// The first fault before the fields, where the version is one that is known or not.
#[tactic(auto, unfolding(crate::specs::Sector::head_fault))]
pub fn head_fault(bytes: &[u8; 512], magic: &[u8; 4], is_known: bool) -> Option<MarkFault>
    ensures { result ≡ head_fault magic.now is_known bytes.now }
{
    if &bytes[..4] != magic.as_slice() {
        Some(MarkFault::BadMagic)
    } else if !is_known {
        Some(MarkFault::BadVersion)
    } else if le32_at(bytes, SUMMED) != crc32(&bytes[..SUMMED]) {
        Some(MarkFault::BadSum)
    } else {
        None
    }
}

/// Writes the piece from a place on.
pub fn put(bytes: &mut [u8; 512], at: usize, piece: &[u8])
    requires { at + length piece.now ≤ 512 }
    ensures { bytes.new ≡ put_at bytes.old at piece.now }
{
    bytes[at..at + piece.len()].copy_from_slice(piece);
}

/// Writes the sum of the bytes before it.
#[tactic(auto, unfolding(crate::specs::Sector::sealed))]
pub fn seal(bytes: &mut [u8; 512])
    ensures sealed { bytes.new ≡ sealed (take 508 bytes.old) }
    ensures sum { crc_of (take 508 bytes.old) < 2 ^ 32 }
{
    let sum = crc32(&bytes[..SUMMED]);
    put_le32(bytes, SUMMED, sum);
}
