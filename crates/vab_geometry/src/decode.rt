//! Reading a geometry.

ghost use Rattle.std.specs.Prelude.{◌≡◌, IfOk, Ok};
ghost use Rattle.vab_geometry.specs.Geometry.{IsGeometry, Represents};
ghost use Rattle.vab_geometry.specs.Reading.{geometry_of};

use crate::geometry::{BLOCK_SIZE, Geometry, GeometryFault, MAGIC, STRUCT_SIZE, sum_of};
use vab_bytes::le32_at;

#[tactic(auto, unfolding(crate::specs::Reading::geometry_of))]
fn read(bytes: &[u8; 512]) -> Result<Geometry, GeometryFault>
    ensures { result ≡ geometry_of bytes.now }
{
    if le32_at(bytes, 0) != MAGIC {
        return Err(GeometryFault::BadMagic);
    }
    if le32_at(bytes, 4) != STRUCT_SIZE {
        return Err(GeometryFault::BadSize);
    }
    let sum = sum_of(&bytes[..8], &bytes[40..52]);
    if &bytes[8..40] != sum.as_slice() {
        return Err(GeometryFault::BadSum);
    }
    let geometry = Geometry {
        max: le32_at(bytes, 40),
        slots: le32_at(bytes, 44),
    };
    if !geometry.keeps_rules() {
        return Err(GeometryFault::BadField);
    }
    if le32_at(bytes, 48) != BLOCK_SIZE {
        return Err(GeometryFault::BadField);
    }
    Ok(geometry)
}

/// The geometry in the first 52 bytes of a sector. The rest isn't read.
pub fn decode_geometry(bytes: &[u8; 512]) -> Result<Geometry, GeometryFault>
    // Which fault it is: the first in the order of `GeometryFault`.
    ensures exact { result ≡ geometry_of bytes.now }
    // What is read is spelled so, and keeps the rules.
    ensures found { IfOk result (λ g. IsGeometry g × Represents bytes.now g) }
    // What is spelled so and keeps the rules is read.
    ensures only { (g : Geometry) → IsGeometry g → Represents bytes.now g → result ≡ Ok g }
{
    read(bytes)
}
