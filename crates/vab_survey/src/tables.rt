//! The tables of both slots, as they stand on the disk.

ghost use Rattle.std.specs.Prelude.{◌≡◌, ◌<◌, ◌≤◌, IfOk, IfErr, Ok, Err};
ghost use Rattle.vab_disk.specs.Calls.{OnlyReads};
ghost use Rattle.vab_geometry.specs.Geometry.{IsGeometry};
ghost use Rattle.vab_device.specs.Faults.{IsOfContents};
ghost use Rattle.vab_device.specs.Kept.{copies_end, super_bytes};
ghost use Rattle.vab_device.specs.Reading.{geometry_at};
ghost use Rattle.vab_tidy.specs.Counts.{CountsFaults};
ghost use Rattle.vab_survey.specs.Copies.{IsSlotTable, HasRules, geometry_seen, IsTablesPage};
ghost use Rattle.vab_survey.specs.Copies.{AreKept};

use crate::copies::SlotTable;
use std::alloc::Global;
use vab_device::StartFault;
use vab_disk::Disk;
use vab_geometry::Geometry;
use vab_lpstore::{LoadFault, load_table};
use vab_recover::{MIN_SECTORS, read_geometry};

/// The tables of both slots, and the geometry that says where their copies stand.
#[derive(Drop)]
pub struct TablesPage {
    pub geometry: Geometry,
    pub a: SlotTable,
    pub b: SlotTable,
}

// The table of a slot.
fn read_slot<D: Disk>(
    alloc: Global,
    d: &mut D,
    geometry: &Geometry,
    slot: usize,
) -> Result<SlotTable, StartFault>
    requires rules { IsGeometry geometry.now }
    requires slot { slot < 2 }
    requires copies_on { copies_end geometry.now ≤ super_bytes (D.size d.old) }
    ensures said { D.is_modelled
        → IfOk result (IsSlotTable geometry.now slot (D.seen d.old)) }
    ensures kept { IfOk result HasRules }
    ensures failed { IfErr result (λ f. IsOfContents f → ⊥) }
    ensures reads { OnlyReads D.Disk d.old d.new }
    ensures counts { CountsFaults D.Disk d.old d.new result }
{
    match load_table(alloc, d, geometry, slot) {
        Ok(loaded) => Ok(SlotTable::Read(loaded)),
        Err(LoadFault::BothBad(first, second)) => Ok(SlotTable::Bad(first, second)),
        Err(LoadFault::NoMemory) => Err(StartFault::NoMemory),
        Err(LoadFault::Disk(fault)) => Err(StartFault::Disk(fault)),
    }
}

/// The tables of both slots, where this is the geometry.
pub(crate) fn tables_at<D: Disk>(
    alloc: Global,
    d: &mut D,
    geometry: Geometry,
) -> Result<TablesPage, StartFault>
    requires rules { IsGeometry geometry }
    requires copies_on { copies_end geometry ≤ super_bytes (D.size d.old) }
    requires geometry { D.is_modelled
        → geometry_at (D.size d.old) (D.seen d.old) ≡ Ok geometry }
    ensures page { D.is_modelled → IfOk result (IsTablesPage (D.size d.old) (D.seen d.old)) }
    ensures kept { IfOk result AreKept }
    ensures failed { IfErr result (λ f. IsOfContents f → ⊥) }
    ensures reads { OnlyReads D.Disk d.old d.new }
    ensures counts { CountsFaults D.Disk d.old d.new result }
{
    match read_slot(alloc, d, &geometry, 0) {
        Err(fault) => Err(fault),
        Ok(a) => match read_slot(alloc, d, &geometry, 1) {
            Err(fault) => Err(fault),
            Ok(b) => Ok(TablesPage { geometry, a, b }),
        },
    }
}

/// The tables of both slots as they stand on the disk, also where it is no device. `TooSmall` and
/// `BadGeometry` come exactly where they say: without a geometry nothing says where the copies
/// stand.
pub fn tables_page<D: Disk>(alloc: Global, d: &mut D) -> Result<TablesPage, StartFault>
    ensures page { D.is_modelled → IfOk result (IsTablesPage (D.size d.old) (D.seen d.old)) }
    ensures kept { IfOk result AreKept }
    ensures fault { D.is_modelled → IfErr result
        (λ f. IsOfContents f → geometry_seen (D.size d.old) (D.seen d.old) ≡ Err f) }
    ensures reads { OnlyReads D.Disk d.old d.new }
    ensures counts { CountsFaults D.Disk d.old d.new result }
{
    let sectors = d.sectors();
    if sectors < MIN_SECTORS {
        return Err(StartFault::TooSmall(MIN_SECTORS, sectors));
    }
    match read_geometry(d, sectors) {
        Err(fault) => Err(fault),
        Ok(geometry) => tables_at(alloc, d, geometry),
    }
}
