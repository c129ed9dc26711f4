//! The blocks of the physical partitions.

ghost use Rattle.std.specs.Prelude.{◌≡◌, ◌≤◌, ◌<◌, ◌+◌, ◌*◌, ◌^◌, codes, IfOk};
ghost use Rattle.vab_marks.specs.Physical.{FitsSizes};
ghost use Rattle.vab_physical.specs.Maps.{boot_text, maps_behind, maps_of, vbmeta_text};
ghost use Rattle.vab_physical.specs.Tail.{sectors_taken};

use std::alloc::Global;
use vab_bytes::{Listing, Name36};
use vab_disk::NoMemory;
use vab_gate::BLOCK_SECTORS;
use vab_linear::Map;
use vab_marks::PhysicalSizes;

/// A physical partition of both slots.
#[derive(Drop)]
pub struct PhysicalMaps {
    /// Its name without the slot's suffix.
    pub name: Name36,
    /// Where the blocks of slot a's stand.
    pub a: Map,
    /// Where the blocks of slot b's stand.
    pub b: Map,
}

/// The name of the partition with the kernel.
#[tactic(auto, unfolding(vab_bytes::specs::Name::is_name))]
pub fn boot_name() -> Name36
    ensures { result ≡ boot_text }
{
    match Name36::parse(b"boot") {
        Ok(name) => name,
        Err(_) => unreachable!(),
    }
}

/// The name of the partition with the metadata of verified boot.
#[tactic(auto, unfolding(vab_bytes::specs::Name::is_name))]
pub fn vbmeta_name() -> Name36
    ensures { result ≡ vbmeta_text }
{
    match Name36::parse(b"vbmeta") {
        Ok(name) => name,
        Err(_) => unreachable!(),
    }
}

// The partition with this name of so many blocks, slot a's from this sector on and slot b's behind
// it.
fn maps_of(alloc: Global, name: Name36, first: u64, blocks: u64) -> Result<PhysicalMaps, NoMemory>
    requires { first + 16 * blocks < 2 ^ 63 }
    ensures { IfOk result (λ m. m ≡ maps_of name first blocks) }
{
    let a = Map::physical(alloc, first, blocks)?;
    let b = Map::physical(alloc, first + BLOCK_SECTORS * blocks, blocks)?;
    Ok(PhysicalMaps { name, a, b })
}

/// The physical partitions of these sizes from a sector on: `boot` of slot a and of slot b, and
/// then `vbmeta` of both.
pub fn maps_behind(
    alloc: Global,
    sizes: &PhysicalSizes,
    super_end: u64,
) -> Result<Listing<PhysicalMaps>, NoMemory>
    requires { super_end + sectors_taken sizes.now < 2 ^ 63 }
    ensures { IfOk result (λ maps. maps ≡ maps_behind sizes.now super_end) }
{
    let second = super_end + 2 * BLOCK_SECTORS * sizes.boot;
    let boot = maps_of(alloc, boot_name(), super_end, sizes.boot)?;
    let vbmeta = maps_of(alloc, vbmeta_name(), second, sizes.vbmeta)?;
    let mut maps = Vec::new(alloc);
    maps.push(boot)?;
    maps.push(vbmeta)?;
    Ok(Listing::from_vec(maps))
}
