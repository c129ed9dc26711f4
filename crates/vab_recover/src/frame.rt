//! What the sectors with places of their own say.

ghost use Rattle.std.specs.Prelude.{◌≡◌, ◌<◌, ◌≤◌, IfOk, IfErr, Ok, Err};
ghost use Rattle.vab_disk.specs.Calls.{OnlyReads};
ghost use Rattle.vab_marks.specs.Mark.{FlagsFit};
ghost use Rattle.vab_device.specs.Faults.{IsOfContents};
ghost use Rattle.vab_device.specs.Kept.{IsPhase, copies_end, super_bytes};
ghost use Rattle.vab_device.specs.Reading.{device, tail_at, geometry_at};
ghost use Rattle.vab_geometry.specs.Geometry.{IsGeometry};
ghost use Rattle.vab_tidy.specs.Counts.{CountsFaults};
ghost use Rattle.vab_recover.specs.Memory.{IsNamed};
ghost use Rattle.vab_recover.specs.Opened.{IsMarked, IsHeaded, AreHeads, ends_at};

use crate::read::{
    read_control, read_end, read_geometry, read_if, read_mark, read_version, reads_statuses,
};
use crate::table::Tables;
use vab_bootctl::Control;
use vab_device::StartFault;
use vab_disk::Disk;
use vab_geometry::Geometry;
use vab_marks::{MarkVersion, UpdateMark};
use vab_physical::Tail;
use vab_statuses::Statuses;

/// The fewest sectors of a device.
pub const MIN_SECTORS: u64 = 4120;

/// What stands in front of the tables.
#[derive(Drop)]
pub struct Heads {
    pub mark: UpdateMark,
    /// The version that the mark has on the disk.
    pub version: MarkVersion,
    /// The statuses of an update's partitions, none where there is no update.
    pub statuses: Statuses,
    pub control: Control,
    /// Where `super` ends.
    pub tail: Tail,
    pub geometry: Geometry,
}

/// What is read of a disk in front of its stores.
#[derive(Drop)]
pub struct Frame {
    pub heads: Heads,
    pub tables: Tables,
}

// The mark with its version, and the statuses where there is an update.
fn read_marks<D: Disk>(d: &mut D) -> Result<(UpdateMark, MarkVersion, Statuses), StartFault>
    ensures marked { D.is_modelled → IfOk result
        (λ r. IsMarked (D.size d.old) (D.seen d.old) r.0 r.1 r.2.items) }
    ensures fault { D.is_modelled → IfErr result
        (λ f. IsOfContents f → device (D.size d.old) (D.seen d.old) ≡ Err f) }
    ensures named { IfErr result IsNamed }
    ensures enough { IfOk result (λ r. 4120 ≤ D.size d.old) }
    ensures phase { IfOk result (λ r. IsPhase r.0.phase) }
    ensures slot { IfOk result (λ r. r.0.slot < 2) }
    ensures apart { IfOk result (λ r. FlagsFit r.0) }
    ensures reads { OnlyReads D.Disk d.old d.new }
    ensures counts { CountsFaults D.Disk d.old d.new result }
{
    let sectors = d.sectors();
    if sectors < MIN_SECTORS {
        return Err(StartFault::TooSmall(MIN_SECTORS, sectors));
    }
    match read_mark(d) {
        Err(fault) => Err(fault),
        Ok(mark) => match read_version(d) {
            Err(fault) => Err(fault),
            Ok(version) => match read_if(d, reads_statuses(mark.phase), version) {
                Err(fault) => Err(fault),
                Ok(statuses) => Ok((mark, version, statuses)),
            },
        },
    }
}

// Where `super` ends, and the geometry.
fn read_ends<D: Disk>(d: &mut D, physical: bool) -> Result<(Tail, Geometry), StartFault>
    requires { 4120 ≤ D.size d.old }
    ensures tail { D.is_modelled → IfOk result
        (λ r. tail_at physical (D.size d.old) (D.seen d.old) ≡ Ok r.0) }
    ensures geometry { D.is_modelled → IfOk result
        (λ r. geometry_at r.0.super_end (D.seen d.old) ≡ Ok r.1) }
    ensures fault { D.is_modelled → IfErr result (λ f. IsOfContents f
        → ends_at physical (D.size d.old) (D.seen d.old) ≡ Err f) }
    ensures named { IfErr result IsNamed }
    ensures end { IfOk result
        (λ r. (4120 ≤ r.0.super_end) × (r.0.super_end ≤ D.size d.old)) }
    ensures rules { IfOk result (λ r. IsGeometry r.1) }
    ensures copies_on { IfOk result (λ r. copies_end r.1 ≤ super_bytes r.0.super_end) }
    ensures reads { OnlyReads D.Disk d.old d.new }
    ensures counts { CountsFaults D.Disk d.old d.new result }
{
    match read_end(d, physical) {
        Err(fault) => Err(fault),
        Ok(tail) => match read_geometry(d, tail.super_end) {
            Err(fault) => Err(fault),
            Ok(geometry) => Ok((tail, geometry)),
        },
    }
}

/// What stands in front of the tables. Each fault of the disk's contents comes only where that is
/// the first thing wrong.
pub fn read_heads<D: Disk>(d: &mut D) -> Result<Heads, StartFault>
    ensures headed { D.is_modelled → IfOk result (λ h. IsHeaded (D.size d.old) (D.seen d.old)
        h.mark h.version h.statuses.items h.control h.tail h.geometry) }
    ensures fault { D.is_modelled → IfErr result
        (λ f. IsOfContents f → device (D.size d.old) (D.seen d.old) ≡ Err f) }
    ensures named { IfErr result IsNamed }
    ensures are { IfOk result (λ h. AreHeads (D.size d.old) h.mark h.control h.tail h.geometry) }
    ensures reads { OnlyReads D.Disk d.old d.new }
    ensures counts { CountsFaults D.Disk d.old d.new result }
{
    match read_marks(d) {
        Err(fault) => Err(fault),
        Ok((mark, version, statuses)) => match read_control(d) {
            Err(fault) => Err(fault),
            Ok(control) => match read_ends(d, mark.physical) {
                Err(fault) => Err(fault),
                Ok((tail, geometry)) => Ok(Heads {
                    mark,
                    version,
                    statuses,
                    control,
                    tail,
                    geometry,
                }),
            },
        },
    }
}
