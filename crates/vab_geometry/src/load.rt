//! The geometry of a disk.

ghost use Rattle.std.specs.Prelude.{◌≡◌, ◌⊎◌, ◌≤◌, ◌<◌, ◌+◌, ℕ, List, IfOk};
ghost use Rattle.vab_disk.specs.Disk.{DiskFailed};
ghost use Rattle.vab_disk.specs.Calls.{OnlyReads, FailsWithDisk};
ghost use Rattle.vab_geometry.specs.Geometry.{IsGeometry};
ghost use Rattle.vab_geometry.specs.Reading.{geometry_of};
ghost use Rattle.vab_geometry.specs.Loading.{geometry_in, Gives, IsDiskFault};

use crate::decode::decode_geometry;
use crate::geometry::{Geometry, GeometryFault};
use vab_disk::Disk;
use vab_gate::{DiskFault, get_sector};

/// The disk sector at which `super` begins.
pub const SUPER: u64 = 4096;

/// The disk sector of the primary geometry, 4096 bytes into `super`.
pub const PRIMARY: u64 = SUPER + 8;

/// The disk sector of the backup, 8192 bytes into `super`.
pub const BACKUP: u64 = SUPER + 16;

/// Why a disk has no geometry: neither copy passes, or the disk has failed.
#[derive(Clone, Copy, Debug, PartialEq, Eq)]
pub enum LoadFault {
    BothBad(GeometryFault, GeometryFault),
    Disk(DiskFault),
}

impl From<DiskFault> for LoadFault {
    ghost use Rattle.vab_geometry.specs.declared.load.LoadFault.TheVariants.{Disk};

    ghost from_gives = { λ x e. e ≡ Disk x };

    fn from(fault: DiskFault) -> Self {
        LoadFault::Disk(fault)
    }
}

fn geometry_at<D: Disk>(d: &mut D, at: u64) -> Result<Result<Geometry, GeometryFault>, DiskFault>
    requires { at < D.size d.old }
    ensures geometry { D.is_modelled
        → IfOk result (λ found. found ≡ geometry_of (D.seen d.old at)) }
    ensures rules { IfOk result (λ found. IfOk found (λ g. IsGeometry g)) }
    ensures reads { OnlyReads D.Disk d.old d.new }
    ensures faults { FailsWithDisk D.Disk d.old d.new result }
{
    let mut sector = [0u8; 512];
    get_sector(d, at, &mut sector)?;
    Ok(decode_geometry(&sector))
}

/// The primary geometry, or else the backup. `BothBad` comes exactly where neither passes, with the
/// faults of both.
#[tactic(auto, unfolding(crate::specs::Loading::geometry_in))]
pub fn load_geometry<D: Disk>(d: &mut D) -> Result<Geometry, LoadFault>
    requires { 4120 ≤ D.size d.old }
    ensures geometry { D.is_modelled → Gives result (geometry_in (D.seen d.old)) }
    ensures rules { IfOk result (λ g. IsGeometry g) }
    ensures reads { OnlyReads D.Disk d.old d.new }
    ensures steady { IsDiskFault result ⊎ (D.faults d.new ≡ D.faults d.old) }
    ensures cause { IsDiskFault result → DiskFailed (D.faults d.old) (D.faults d.new) }
{
    let first = match geometry_at(d, PRIMARY)? {
        Ok(geometry) => return Ok(geometry),
        Err(fault) => fault,
    };
    match geometry_at(d, BACKUP)? {
        Ok(geometry) => Ok(geometry),
        Err(second) => Err(LoadFault::BothBad(first, second)),
    }
}
