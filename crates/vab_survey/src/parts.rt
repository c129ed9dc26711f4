//! The parts of a disk in the order of opening, each by itself.

ghost use Rattle.std.specs.Prelude.{◌≡◌, ◌<◌, ◌≤◌, Bool, IfOk, IfErr};
ghost use Rattle.vab_disk.specs.Calls.{OnlyReads};
ghost use Rattle.vab_geometry.specs.Geometry.{IsGeometry};
ghost use Rattle.vab_device.specs.Faults.{IsOfContents};
ghost use Rattle.vab_device.specs.Kept.{copies_end, super_bytes};
ghost use Rattle.vab_device.specs.Reading.{mark_in, control_in, geometry_at};
ghost use Rattle.vab_tidy.specs.Counts.{CountsFaults};
ghost use Rattle.vab_survey.specs.Findings.{AreFound, AreStatuses, Finds, FindsStatuses};
ghost use Rattle.vab_survey.specs.Findings.{FindsTables, listed};

use crate::finding::{Finding, finding_of};
use crate::found::{
    Behind, Said, found_control, found_tables, said_geometry, said_mark, said_statuses, unread,
};
use std::alloc::Global;
use vab_device::StartFault;
use vab_disk::Disk;
use vab_geometry::Geometry;
use vab_marks::UpdateMark;
use vab_recover::MARK_SECTOR;
use vab_statuses::Statuses;

/// What is found of the parts that opening reads, whatever those in front of them are. Where the
/// stores and the states are judged, all of these are fine.
#[derive(Clone, Copy, Debug, PartialEq, Eq)]
pub struct Parts {
    pub mark: Finding,
    /// Unread where there is no mark.
    pub statuses: Finding,
    pub control: Finding,
    pub geometry: Finding,
    /// Those that the mark asks for; unread where there is no mark or no geometry.
    pub tables: Finding,
    /// Unread where a table is wrong.
    pub partitions: Finding,
    /// Those that the statuses name; unread where they or the partitions are wrong.
    pub stores: Finding,
}

// The mark, and the statuses, which without a mark are wrong.
fn read_marks<D: Disk>(d: &mut D) -> Result<(Said<UpdateMark>, Said<Statuses>), StartFault>
    requires { 2113 ≤ D.size d.old }
    ensures mark { D.is_modelled → IfOk result (λ r. mark_in (D.seen d.old) ≡ r.0) }
    ensures slot { IfOk result (λ r. IfOk r.0 (λ m. m.slot < 2)) }
    ensures statuses { D.is_modelled
        → IfOk result (λ r. AreStatuses r.0 (listed r.1) (D.seen d.old)) }
    ensures failed { IfErr result (λ f. IsOfContents f → ⊥) }
    ensures reads { OnlyReads D.Disk d.old d.new }
    ensures counts { CountsFaults D.Disk d.old d.new result }
{
    match said_mark(d) {
        Err(fault) => Err(fault),
        Ok(Err(fault)) => Ok((Err(fault), Err(StartFault::BadMark(MARK_SECTOR)))),
        Ok(Ok(mark)) => match said_statuses(d, &mark) {
            Err(fault) => Err(fault),
            Ok(statuses) => Ok((Ok(mark), statuses)),
        },
    }
}

// What is found of the statuses.
fn found_statuses(mark: &Said<UpdateMark>, statuses: &Said<Statuses>) -> Finding
    ensures { FindsStatuses result mark.now (listed statuses.now) }
{
    match mark {
        Err(_) => Finding::Unread,
        Ok(_) => finding_of(statuses),
    }
}

// What is found of the boot control, and the geometry.
fn read_places<D: Disk>(d: &mut D) -> Result<(Finding, Said<Geometry>), StartFault>
    requires { 4120 ≤ D.size d.old }
    ensures control { D.is_modelled → IfOk result
        (λ r. (a b : Bool) → Finds r.0 (control_in a b (D.seen d.old))) }
    ensures geometry { D.is_modelled
        → IfOk result (λ r. geometry_at (D.size d.old) (D.seen d.old) ≡ r.1) }
    ensures rules { IfOk result (λ r. IfOk r.1 IsGeometry) }
    ensures copies_on { IfOk result
        (λ r. IfOk r.1 (λ g. copies_end g ≤ super_bytes (D.size d.old))) }
    ensures failed { IfErr result (λ f. IsOfContents f → ⊥) }
    ensures reads { OnlyReads D.Disk d.old d.new }
    ensures counts { CountsFaults D.Disk d.old d.new result }
{
    match found_control(d) {
        Err(fault) => Err(fault),
        Ok(control) => match said_geometry(d) {
            Err(fault) => Err(fault),
            Ok(geometry) => Ok((control, geometry)),
        },
    }
}

// What is found of the tables and behind them.
fn read_slots<D: Disk>(
    alloc: Global,
    d: &mut D,
    mark: &Said<UpdateMark>,
    statuses: &Said<Statuses>,
    geometry: &Said<Geometry>,
) -> Result<Behind, StartFault>
    requires enough { 4120 ≤ D.size d.old }
    requires slot { IfOk mark.now (λ m. m.slot < 2) }
    requires rules { IfOk geometry.now IsGeometry }
    requires copies_on { IfOk geometry.now
        (λ g. copies_end g ≤ super_bytes (D.size d.old)) }
    ensures behind { D.is_modelled → IfOk result (λ r.
        FindsTables r (D.size d.old) mark.now (listed statuses.now) geometry.now
        (D.seen d.old)) }
    ensures failed { IfErr result (λ f. IsOfContents f → ⊥) }
    ensures reads { OnlyReads D.Disk d.old d.new }
    ensures counts { CountsFaults D.Disk d.old d.new result }
{
    match mark {
        Err(_) => Ok(unread()),
        Ok(mark) => match geometry {
            Err(_) => Ok(unread()),
            Ok(geometry) => found_tables(alloc, d, geometry, mark, statuses),
        },
    }
}

// What is found behind the mark and the statuses.
fn found_behind<D: Disk>(
    alloc: Global,
    d: &mut D,
    mark: &Said<UpdateMark>,
    statuses: &Said<Statuses>,
) -> Result<Parts, StartFault>
    requires enough { 4120 ≤ D.size d.old }
    requires slot { IfOk mark.now (λ m. m.slot < 2) }
    requires mark { D.is_modelled → mark_in (D.seen d.old) ≡ mark.now }
    requires statuses { D.is_modelled
        → AreStatuses mark.now (listed statuses.now) (D.seen d.old) }
    ensures parts { D.is_modelled
        → IfOk result (AreFound (D.size d.old) (D.seen d.old)) }
    ensures failed { IfErr result (λ f. IsOfContents f → ⊥) }
    ensures reads { OnlyReads D.Disk d.old d.new }
    ensures counts { CountsFaults D.Disk d.old d.new result }
{
    match read_places(d) {
        Err(fault) => Err(fault),
        Ok((control, geometry)) => match read_slots(alloc, d, mark, statuses, &geometry) {
            Err(fault) => Err(fault),
            Ok(behind) => Ok(Parts {
                mark: finding_of(mark),
                statuses: found_statuses(mark, statuses),
                control,
                geometry: finding_of(&geometry),
                tables: behind.tables,
                partitions: behind.partitions,
                stores: behind.stores,
            }),
        },
    }
}

/// What is found of each part of a disk that is large enough.
pub(crate) fn read_parts<D: Disk>(alloc: Global, d: &mut D) -> Result<Parts, StartFault>
    requires { 4120 ≤ D.size d.old }
    ensures parts { D.is_modelled
        → IfOk result (AreFound (D.size d.old) (D.seen d.old)) }
    ensures failed { IfErr result (λ f. IsOfContents f → ⊥) }
    ensures reads { OnlyReads D.Disk d.old d.new }
    ensures counts { CountsFaults D.Disk d.old d.new result }
{
    match read_marks(d) {
        Err(fault) => Err(fault),
        Ok((mark, statuses)) => found_behind(alloc, d, &mark, &statuses),
    }
}
