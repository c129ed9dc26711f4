//! Where the copies of a slot's table stand.

ghost use Rattle.std.specs.Prelude.{◌≡◌, ◌<◌, ◌^◌};
ghost use Rattle.vab_geometry.specs.Geometry.{IsGeometry};
ghost use Rattle.vab_lpstore.specs.Layout.{copy_sectors, primary_of, backup_of, text_sectors};

use vab_geometry::{Geometry, SUPER};

// The tables begin 12288 bytes into `super`.
const FIRST: u64 = SUPER + 24;

pub fn copy_size(geometry: &Geometry) -> u64
    ensures { result ≡ copy_sectors geometry.now }
{
    u64::from(geometry.max / 512)
}

#[tactic(auto, unfolding(crate::specs::Layout::primary_of))]
pub fn primary(geometry: &Geometry, slot: usize) -> u64
    requires rules { IsGeometry geometry.now }
    requires slot { slot < geometry.now.slots }
    ensures { result ≡ primary_of geometry.now slot }
{
    FIRST + slot as u64 * copy_size(geometry)
}

#[tactic(auto, unfolding(crate::specs::Layout::backup_of))]
pub fn backup(geometry: &Geometry, slot: usize) -> u64
    requires rules { IsGeometry geometry.now }
    requires slot { slot < geometry.now.slots }
    ensures { result ≡ backup_of geometry.now slot }
{
    FIRST + (u64::from(geometry.slots) + slot as u64) * copy_size(geometry)
}

// Sectors of a text, at least one.
#[tactic(auto, unfolding(crate::specs::Layout::text_sectors))]
pub fn sectors(bytes: usize) -> u64
    requires { bytes < 2 ^ 32 }
    ensures { result ≡ text_sectors bytes }
{
    ((bytes as u64 + 511) / 512).max(1)
}
