//! The copies of the geometry, and the mark as it stands with its version.

ghost use Rattle.std.specs.Prelude.{◌≡◌, ◌<◌, ◌≤◌, IfOk, IfErr};
ghost use Rattle.vab_disk.specs.Calls.{OnlyReads};
ghost use Rattle.vab_marks.specs.Mark.{mark_of};
ghost use Rattle.vab_marks.specs.Version.{version_in};
ghost use Rattle.vab_device.specs.Faults.{IsOfDisk};
ghost use Rattle.vab_tidy.specs.Counts.{CountsFaults};
ghost use Rattle.vab_survey.specs.Surveyed.{AreGeometries};

use vab_device::StartFault;
use vab_disk::Disk;
use vab_gate::get_sector;
use vab_geometry::{BACKUP, Geometry, GeometryFault, PRIMARY, decode_geometry};
use vab_marks::{MarkFault, MarkVersion, UpdateMark, decode_mark};
use vab_recover::MARK_SECTOR;

/// Both copies of the geometry, each by itself.
#[derive(Drop)]
pub struct Geometries {
    /// Sector 4104.
    pub primary: Result<Geometry, GeometryFault>,
    /// Sector 4112.
    pub backup: Result<Geometry, GeometryFault>,
}

// Reads a sector.
fn read<D: Disk>(d: &mut D, at: u64) -> Result<[u8; 512], StartFault>
    requires { at < D.size d.old }
    ensures bytes { D.is_modelled → IfOk result (λ b. b ≡ D.seen d.old at) }
    ensures failed { IfErr result IsOfDisk }
    ensures reads { OnlyReads D.Disk d.old d.new }
    ensures counts { CountsFaults D.Disk d.old d.new result }
{
    let mut sector = [0u8; 512];
    match get_sector(d, at, &mut sector) {
        Ok(()) => Ok(sector),
        Err(fault) => Err(StartFault::Disk(fault)),
    }
}

/// The mark as it stands, and the version that its sector says.
pub(crate) fn read_mark<D: Disk>(
    d: &mut D,
) -> Result<(Result<UpdateMark, MarkFault>, MarkVersion), StartFault>
    requires { 2048 < D.size d.old }
    ensures mark { D.is_modelled → IfOk result (λ r. r.0 ≡ mark_of (D.seen d.old 2048)) }
    ensures version { D.is_modelled → IfOk result (λ r. r.1 ≡ version_in (D.seen d.old 2048)) }
    ensures failed { IfErr result IsOfDisk }
    ensures reads { OnlyReads D.Disk d.old d.new }
    ensures counts { CountsFaults D.Disk d.old d.new result }
{
    match read(d, MARK_SECTOR) {
        Ok(sector) => Ok((decode_mark(&sector), MarkVersion::of_mark(&sector))),
        Err(fault) => Err(fault),
    }
}

/// Both copies of the geometry.
pub(crate) fn read_geometries<D: Disk>(d: &mut D) -> Result<Geometries, StartFault>
    requires { 4120 ≤ D.size d.old }
    ensures geometries { D.is_modelled → IfOk result (AreGeometries (D.seen d.old)) }
    ensures failed { IfErr result IsOfDisk }
    ensures reads { OnlyReads D.Disk d.old d.new }
    ensures counts { CountsFaults D.Disk d.old d.new result }
{
    match read(d, PRIMARY) {
        Err(fault) => Err(fault),
        Ok(primary) => match read(d, BACKUP) {
            Err(fault) => Err(fault),
            Ok(backup) => Ok(Geometries {
                primary: decode_geometry(&primary),
                backup: decode_geometry(&backup),
            }),
        },
    }
}
