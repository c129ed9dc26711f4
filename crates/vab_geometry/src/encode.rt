//! Writing a geometry.

ghost use Rattle.std.specs.Prelude.{◌≡◌, ◌≤◌, ◌+◌, Ok, ◌++◌, length, replicate};
ghost use Rattle.vab_bytes.specs.Number.{put_at};
ghost use Rattle.vab_geometry.specs.Geometry.{IsGeometry, front_bytes, back_bytes, geometry_sector};
ghost use Rattle.vab_geometry.specs.Reading.{geometry_of};

use crate::geometry::{BLOCK_SIZE, Geometry, MAGIC, STRUCT_SIZE, sum_of};
use vab_bytes::put_le32;

fn front() -> [u8; 8]
    ensures { result ≡ front_bytes }
{
    let mut bytes = [0u8; 8];
    put_le32(&mut bytes, 0, MAGIC);
    put_le32(&mut bytes, 4, STRUCT_SIZE);
    bytes
}

fn back(geometry: &Geometry) -> [u8; 12]
    ensures { result ≡ back_bytes geometry.now }
{
    let mut bytes = [0u8; 12];
    put_le32(&mut bytes, 0, geometry.max);
    put_le32(&mut bytes, 4, geometry.slots);
    put_le32(&mut bytes, 8, BLOCK_SIZE);
    bytes
}

fn put(bytes: &mut [u8], at: usize, piece: &[u8])
    requires { at + length piece.now ≤ length bytes.old }
    ensures { bytes.new ≡ put_at bytes.old at piece.now }
{
    bytes[at..at + piece.len()].copy_from_slice(piece);
}

// A sector that begins with these bytes, and is zeros behind them.
fn joined(front: &[u8; 8], sum: &[u8; 32], back: &[u8; 12]) -> [u8; 512]
    ensures { result ≡ (front.now ++ (sum.now ++ back.now)) ++ replicate 460 0 }
{
    let mut sector = [0u8; 512];
    put(&mut sector, 0, front);
    put(&mut sector, 8, sum);
    put(&mut sector, 40, back);
    sector
}

/// The sector of a geometry: its 52 bytes, and zeros.
#[tactic(auto, unfolding(crate::specs::Geometry::geometry_sector))]
pub fn encode_geometry(geometry: &Geometry) -> [u8; 512]
    requires { IsGeometry geometry.now }
    ensures spelled { result ≡ geometry_sector geometry.now }
    ensures read { geometry_of result ≡ Ok geometry.now }
{
    let front = front();
    let back = back(geometry);
    joined(&front, &sum_of(&front, &back), &back)
}
