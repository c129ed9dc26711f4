//! What the begin of an update writes before its mark.

ghost use Rattle.std.specs.Prelude.{◌≡◌, ◌<◌, ◌≤◌, ◌+◌, length, Ok, OnOk};
ghost use Rattle.vab_disk.specs.Calls.{IsAtRest, Touches, FailsWithDisk};
ghost use Rattle.vab_bootctl.specs.Control.{Fits};
ghost use Rattle.vab_geometry.specs.Geometry.{IsGeometry};
ghost use Rattle.vab_lpstore.specs.Layout.{copy_sectors, backup_of, BothHold};
ghost use Rattle.vab_statuses.specs.Statuses.{statuses_in, no_statuses, first_status};
ghost use Rattle.vab_statuses.specs.Statuses.{status_sectors};
ghost use Rattle.vab_install.specs.Control.{cleared_of, IsWritten};
ghost use Rattle.vab_install.specs.Begin.{IsOfClearing, IsOfBegin};

use crate::control::{cleared, put_info};
use vab_bootctl::Control;
use vab_disk::Disk;
use vab_gate::DiskFault;
use vab_geometry::Geometry;
use vab_lpstore::store_table;
use vab_statuses::clear_statuses;

// Writes the boot control and zeros over the statuses, and doesn't sync.
fn clear_update<D: Disk>(d: &mut D, control: &Control) -> Result<(), DiskFault>
    requires on_disk { first_status + status_sectors ≤ D.size d.old }
    requires fits { Fits control.now }
    ensures control { D.is_modelled
        → OnOk result (IsWritten control.now (D.seen d.old 4) (D.seen d.new 4)) }
    ensures statuses { D.is_modelled → OnOk result (statuses_in (D.seen d.new) ≡ Ok no_statuses) }
    ensures touches { Touches D.Disk
        (IsOfClearing D.is_modelled control.now (D.seen d.old 4)) d.old d.new }
    ensures faults { FailsWithDisk D.Disk d.old d.new result }
{
    put_info(d, control)?;
    clear_statuses(d)
}

/// Writes what stands on the disk before the mark says that an update has begun: boot control with
/// nothing said of the target slot, no statuses, and the target's table in both copies; then all
/// of it is synced.
pub fn prepare_begin<D: Disk>(
    d: &mut D,
    geometry: &Geometry,
    target: usize,
    control: &Control,
    text: &[u8],
) -> Result<(), DiskFault>
    requires rules { IsGeometry geometry.now }
    requires slot { target < 2 }
    requires table_on_disk { backup_of geometry.now target + copy_sectors geometry.now
        ≤ D.size d.old }
    requires statuses_on_disk { first_status + status_sectors ≤ D.size d.old }
    requires text_fits { length text.now ≤ geometry.now.max }
    requires fits { Fits control.now }
    // Boot control is the given one without the target, and all other bits of its sector stay.
    ensures control { D.is_modelled → OnOk result
        (IsWritten (cleared_of control.now target) (D.seen d.old 4) (D.seen d.new 4)) }
    ensures statuses { D.is_modelled → OnOk result (statuses_in (D.seen d.new) ≡ Ok no_statuses) }
    ensures stored { D.is_modelled
        → OnOk result (BothHold geometry.now target text.now (D.seen d.new)) }
    ensures settled { D.is_modelled → OnOk result (IsAtRest D.Disk d.new) }
    // It touches boot control, the statuses and the target's table alone.
    ensures touches { Touches D.Disk
        (IsOfBegin D.is_modelled geometry.now target (cleared_of control.now target) text.now
        (D.seen d.old 4)) d.old d.new }
    ensures faults { FailsWithDisk D.Disk d.old d.new result }
{
    clear_update(d, &cleared(control, target))?;
    store_table(d, geometry, target, text)
}
