//! The geometry and the table of slot a.

ghost use Rattle.std.specs.Prelude.{◌≡◌, ◌≢◌, ◌<◌, ◌≤◌, ◌+◌, ◌++◌, length, replicate, OnOk};
ghost use Rattle.vab_disk.specs.Calls.{InSectors, Touches, FailsWithDisk};
ghost use Rattle.vab_geometry.specs.Geometry.{geometry_sector};
ghost use Rattle.vab_make.specs.Made.{made_geometry};
ghost use Rattle.vab_make.specs.Prepared.{IsMost};
ghost use Rattle.vab_make.specs.Touched.{IsOfGeometry, IsOfCopies, IsOfPlaces};
ghost use Rattle.vab_lpstore.specs.Layout.{BothHold};
ghost use Rattle.vab_make.specs.Steps.{HasPlaces};

use vab_disk::Disk;
use vab_gate::{DiskFault, put_block};
use vab_geometry::{BACKUP, Geometry, PRIMARY, encode_geometry};
use vab_lpstore::store_table;

// The geometry of the device.
fn made_geometry(max: u32) -> Geometry
    ensures { result ≡ made_geometry max }
{
    Geometry { max, slots: 2 }
}

// The block of a geometry: its sector, and zeros.
fn geometry_page(geometry: &Geometry) -> [u8; 4096]
    requires most { IsMost geometry.now.max }
    requires two { geometry.now.slots ≡ 2 }
    ensures { result ≡ geometry_sector geometry.now ++ replicate 3584 0 }
{
    let mut page = [0u8; 4096];
    page[..512].copy_from_slice(&encode_geometry(geometry));
    page
}

// Writes both copies of the geometry.
fn put_geometry<D: Disk>(d: &mut D, geometry: &Geometry) -> Result<(), DiskFault>
    requires most { IsMost geometry.now.max }
    requires two { geometry.now.slots ≡ 2 }
    requires on_disk { 4120 ≤ D.size d.old }
    ensures primary { D.is_modelled
        → OnOk result (D.seen d.new 4104 ≡ geometry_sector geometry.now) }
    ensures backup { D.is_modelled
        → OnOk result (D.seen d.new 4112 ≡ geometry_sector geometry.now) }
    ensures touches { Touches D.Disk (InSectors IsOfGeometry) d.old d.new }
    ensures faults { FailsWithDisk D.Disk d.old d.new result }
{
    let page = geometry_page(geometry);
    put_block(d, PRIMARY, &page)?;
    put_block(d, BACKUP, &page)
}

// Writes both copies of slot a's table.
fn put_table<D: Disk>(d: &mut D, geometry: &Geometry, text: &[u8]) -> Result<(), DiskFault>
    requires most { IsMost geometry.now.max }
    requires two { geometry.now.slots ≡ 2 }
    requires on_disk { 6144 ≤ D.size d.old }
    requires fits { length text.now ≤ geometry.now.max }
    ensures stored { D.is_modelled → OnOk result (BothHold geometry.now 0 text.now (D.seen d.new)) }
    ensures touches { Touches D.Disk (InSectors (IsOfCopies geometry.now.max)) d.old d.new }
    ensures faults { FailsWithDisk D.Disk d.old d.new result }
{
    store_table(d, geometry, 0, text)
}

// Writes the geometry and the table.
pub fn put_places<D: Disk>(d: &mut D, max: u32, text: &[u8]) -> Result<(), DiskFault>
    requires most { IsMost max }
    requires on_disk { 6144 ≤ D.size d.old }
    requires fits { length text.now ≤ max }
    ensures places { D.is_modelled → OnOk result (HasPlaces max text.now (D.seen d.new)) }
    ensures touches { Touches D.Disk (InSectors (IsOfPlaces max)) d.old d.new }
    ensures faults { FailsWithDisk D.Disk d.old d.new result }
{
    let geometry = made_geometry(max);
    put_geometry(d, &geometry)?;
    put_table(d, &geometry, text)
}
