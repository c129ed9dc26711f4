//! A geometry, and what its bytes have in common in both directions.

ghost use Rattle.std.specs.Prelude.{◌≡◌};
ghost use Rattle.vab_geometry.specs.Geometry.{sum_around};
ghost use Rattle.vab_geometry.specs.Reading.{keeps_rules};

use sha2::{Digest, Sha256};

/// The magic number in front.
pub const MAGIC: u32 = 0x616C4467;

/// Bytes of the structure: what is read of a sector.
pub const STRUCT_SIZE: u32 = 52;

/// Bytes of a logical block.
pub const BLOCK_SIZE: u32 = 4096;

/// How the tables of logical partitions are kept (AOSP liblp, `LpMetadataGeometry`).
#[derive(Clone, Copy, Debug, PartialEq, Eq)]
pub struct Geometry {
    /// Bytes of a copy of a table: a multiple of 512 from 512 to 2^20.
    pub max: u32,
    /// Slots, from 2 to 8, each of which has a table in two copies.
    pub slots: u32,
}

/// Why a sector holds no geometry: the first of these that is met.
#[derive(Clone, Copy, Debug, PartialEq, Eq)]
pub enum GeometryFault {
    /// It begins with another number.
    BadMagic,
    /// The structure has another size than 52 bytes.
    BadSize,
    /// The SHA-256 sum is another.
    BadSum,
    /// A field breaks its rule, or a logical block hasn't 4096 bytes.
    BadField,
}

impl Geometry {
    // Whether the fields keep their rules.
    pub fn keeps_rules(&self) -> bool
        ensures { result ≡ keeps_rules self.now }
    {
        self.max.is_multiple_of(512)
            && (512..=1 << 20).contains(&self.max)
            && (2..=8).contains(&self.slots)
    }
}

// The SHA-256 sum of what stands before the sum and behind it, with zeros in its own place.
#[tactic(auto, unfolding(crate::specs::Geometry::sum_around))]
pub fn sum_of(front: &[u8], back: &[u8]) -> [u8; 32]
    ensures { result ≡ sum_around front.now back.now }
{
    let mut hasher = Sha256::new();
    hasher.update(front);
    hasher.update([0u8; 32].as_slice());
    hasher.update(back);
    hasher.finalize()
}
