//! Where `super` ends in front of the physical partitions.

ghost use Rattle.std.specs.Prelude.{◌≡◌, ◌≤◌, ◌<◌, ◌^◌, OnOk, IfOk, Some};
ghost use Rattle.vab_disk.specs.Disk.{Adds, IsAt, LeavesEither, set_sector};
ghost use Rattle.vab_disk.specs.Calls.{FailsWithDisk, IsAtRest, OnlyReads, Touches};
ghost use Rattle.vab_marks.specs.Physical.{FitsSizes, physical_of, physical_spelling};
ghost use Rattle.vab_physical.specs.Tail.{ends_by, super_end, tail_in, tail_read};

use vab_disk::Disk;
use vab_gate::{BLOCK_SECTORS, DiskFault, SECTOR, get_sector, put_gate};
use vab_marks::{PhysicalSizes, decode_physical, encode_physical};

/// The sector with the sizes of the physical partitions.
pub const SIZES_SECTOR: u64 = 2113;

/// The sectors in front of which `super` doesn't end: those that a device has at least.
const LEAST_SECTORS: u64 = 4120;

/// How many blocks the physical partitions of a slot have, and where `super` ends in front of them.
#[derive(Clone, Copy, Debug, PartialEq, Eq)]
pub struct Tail {
    pub sizes: PhysicalSizes,
    /// The first sector behind `super`, where the physical partitions begin.
    pub super_end: u64,
}

/// Where `super` ends on a disk of so many sectors whose last ones are physical partitions of these
/// sizes; `None` where fewer than 4120 are left in front of them.
pub fn super_end(sizes: &PhysicalSizes, sectors: u64) -> Option<u64>
    requires { FitsSizes sizes.now }
    ensures { result ≡ super_end sizes.now sectors }
{
    let taken = 2 * BLOCK_SECTORS * (sizes.boot + sizes.vbmeta);
    if LEAST_SECTORS + taken <= sectors {
        Some(sectors - taken)
    } else {
        None
    }
}

// Those sizes and that end.
fn tail_of(sizes: PhysicalSizes, sectors: u64) -> Option<Tail>
    requires { FitsSizes sizes }
    ensures { result ≡ ends_by sizes (super_end sizes sectors) }
{
    match super_end(&sizes, sectors) {
        Some(super_end) => Some(Tail { sizes, super_end }),
        None => None,
    }
}

/// Reads the sizes of the physical partitions of a disk, and where `super` ends in front of them;
/// `None` where the sector has no sizes, or the disk has too few sectors for them.
pub fn read_tail<D: Disk>(d: &mut D) -> Result<Option<Tail>, DiskFault>
    requires { 2113 < D.size d.old }
    ensures tail { D.is_modelled
        → IfOk result (λ t. t ≡ tail_in (D.size d.old) (D.seen d.old)) }
    // Where it ends there are 4120 sectors in front of it, and it is on the disk.
    ensures end { IfOk result (λ t. (tail : Tail)
        → t ≡ Some tail
        → (4120 ≤ tail.super_end) × (tail.super_end ≤ D.size d.old)) }
    ensures reads { OnlyReads D.Disk d.old d.new }
    ensures faults { FailsWithDisk D.Disk d.old d.new result }
{
    let sectors = d.sectors();
    let mut sector = [0; SECTOR];
    get_sector(d, SIZES_SECTOR, &mut sector)?;
    match decode_physical(&sector) {
        Ok(sizes) => Ok(tail_of(sizes, sectors)),
        Err(_) => Ok(None),
    }
}

/// Writes the sizes of the physical partitions, and syncs.
pub fn put_sizes<D: Disk>(d: &mut D, sizes: &PhysicalSizes) -> Result<(), DiskFault>
    requires sizes { FitsSizes sizes.now }
    requires there { 2113 < D.size d.old }
    ensures written { D.is_modelled → OnOk result
        (D.seen d.new ≡ set_sector (D.seen d.old) 2113 (physical_spelling sizes.now)) }
    ensures settled { D.is_modelled → OnOk result (IsAtRest D.Disk d.new) }
    // It touches their sector alone.
    ensures touches { Touches D.Disk (IsAt 2113 (physical_spelling sizes.now)) d.old d.new }
    // Where nothing was pending, each outcome has the old sector or the new one.
    ensures gate { D.is_modelled
        → IsAtRest D.Disk d.old
        → Adds D.moment D.outcomes d.old d.new
        (LeavesEither (D.told d.old) (D.seen d.old)
        (set_sector (D.seen d.old) 2113 (physical_spelling sizes.now))) }
    ensures faults { FailsWithDisk D.Disk d.old d.new result }
{
    put_gate(d, SIZES_SECTOR, &encode_physical(sizes))
}
