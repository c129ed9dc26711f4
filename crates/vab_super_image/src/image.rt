//! Reading an image of a `super`.

ghost use Rattle.std.specs.Prelude.{◌≡◌, ◌<◌, ◌≤◌, ◌^◌, length, take, drop, IfOk, IfSome, Ok};
ghost use Rattle.vab_geometry.specs.Geometry.{IsGeometry};
ghost use Rattle.vab_tables.specs.Rules.{KeepsRules};
ghost use Rattle.vab_tables.specs.Spelling.{table_size_of};
ghost use Rattle.vab_super_image.specs.SuperImage.{super_image_of, IsSuperImage, with_table};
ghost use Rattle.vab_super_image.specs.SuperImage.{table_in, IsRead};

use std::alloc::Global;
use vab_geometry::{Geometry, decode_geometry};
use vab_partitions::{MAX_PARTITIONS, bad_partition};
use vab_tables::{NoMemory, Table, TableFault, decode_table};

/// Bytes of the geometry's block, behind which the text of the table stands.
const BLOCK: usize = 4096;

/// An image of a `super`: its geometry, and its table.
#[derive(Drop)]
pub struct SuperImage {
    pub geometry: Geometry,
    pub table: Table,
}

// The table behind the geometry's block, where it is one.
fn table_behind(alloc: Global, bytes: &[u8], max: u32) -> Result<Option<Table>, NoMemory>
    requires { 4096 ≤ length bytes.now }
    ensures { IfOk result (IsRead max (drop 4096 bytes.now)) }
{
    match decode_table(alloc, &bytes[BLOCK..], max) {
        Ok(table) => Ok(Some(table)),
        Err(TableFault::NoMemory) => Err(NoMemory),
        Err(_) => Ok(None),
    }
}

// The image of this geometry and this table, where the slot's own partitions keep their rules.
fn owned(
    alloc: Global,
    geometry: Geometry,
    table: Table,
    slot: usize,
) -> Result<Option<SuperImage>, NoMemory>
    requires slot { slot < 2 }
    requires geometry { IsGeometry geometry }
    requires keeps { KeepsRules table }
    requires small { table_size_of table < 2 ^ 24 }
    ensures exact { IfOk result (λ i. i ≡ with_table slot geometry (Ok table)) }
    ensures rules { IfOk result (λ i. IfSome i (IsSuperImage slot)) }
{
    match bad_partition(alloc, &table, slot, MAX_PARTITIONS) {
        Err(refused) => Err(refused),
        Ok(Some(_)) => Ok(None),
        Ok(None) => Ok(Some(SuperImage { geometry, table })),
    }
}

// The image of this geometry, with the table that stands behind its block.
fn behind(
    alloc: Global,
    geometry: Geometry,
    bytes: &[u8],
    slot: usize,
) -> Result<Option<SuperImage>, NoMemory>
    requires slot { slot < 2 }
    requires long { 4096 ≤ length bytes.now }
    requires rules { IsGeometry geometry }
    ensures exact { IfOk result
        (λ i. i ≡ with_table slot geometry (table_in geometry bytes.now)) }
    ensures rules { IfOk result (λ i. IfSome i (IsSuperImage slot)) }
{
    match table_behind(alloc, bytes, geometry.max) {
        Err(refused) => Err(refused),
        Ok(None) => Ok(None),
        Ok(Some(table)) => owned(alloc, geometry, table, slot),
    }
}

// The first sector.
fn first_sector(bytes: &[u8]) -> [u8; 512]
    requires { 512 ≤ length bytes.now }
    ensures { result ≡ take 512 bytes.now }
{
    let mut sector = [0u8; 512];
    sector.copy_from_slice(&bytes[..512]);
    sector
}

/// The image of a `super` that these bytes are: a block of 4096 bytes that begins with a geometry,
/// and the text of a table of at most as many bytes as the geometry says, whose partitions of this
/// slot keep their rules. What stands behind the table isn't read. None where they are no such
/// image; `NoMemory` where memory is refused.
pub fn read_super_image(
    alloc: Global,
    bytes: &[u8],
    slot: usize,
) -> Result<Option<SuperImage>, NoMemory>
    requires slot { slot < 2 }
    ensures exact { IfOk result (λ i. i ≡ super_image_of slot bytes.now) }
    ensures rules { IfOk result (λ i. IfSome i (IsSuperImage slot)) }
{
    if bytes.len() < BLOCK {
        return Ok(None);
    }
    match decode_geometry(&first_sector(bytes)) {
        Err(_) => Ok(None),
        Ok(geometry) => behind(alloc, geometry, bytes, slot),
    }
}
