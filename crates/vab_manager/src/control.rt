//! Writing the boot control.

ghost use Rattle.std.specs.Prelude.{◌≡◌, ◌<◌, OnOk};
ghost use Rattle.vab_disk.specs.Disk.{Adds};
ghost use Rattle.vab_disk.specs.Calls.{FailsWithDisk, IsAtRest, IsQuiet, Touches};
ghost use Rattle.vab_bootctl.specs.Control.{Fits};
ghost use Rattle.vab_manager.specs.Controls.{HasControl, LeavesControl, IsControl};

use vab_bootctl::{Control, encode_control_into};
use vab_disk::Disk;
use vab_gate::{DiskFault, get_sector, put_gate};

/// The disk sector of the boot control.
const CONTROL_SECTOR: u64 = 4;

/// Puts the boot control into its sector by one gate. All other bits of the sector stay.
pub fn put_control<D: Disk>(d: &mut D, control: &Control) -> Result<(), DiskFault>
    requires on_disk { 4 < D.size d.old }
    requires fits { Fits control.now }
    ensures sector { D.is_modelled
        → OnOk result (HasControl control.now (D.seen d.old) (D.seen d.new)) }
    ensures settled { D.is_modelled → OnOk result (IsAtRest D.Disk d.new) }
    ensures quiet { IsQuiet D.Disk d.old d.new }
    // It touches that sector alone.
    ensures touches { D.is_modelled
        → Touches D.Disk (IsControl control.now (D.seen d.old 4)) d.old d.new }
    ensures gate { D.is_modelled
        → IsAtRest D.Disk d.old
        → Adds D.moment D.outcomes d.old d.new
        (LeavesControl (D.told d.old) control.now (D.seen d.old)) }
    ensures faults { FailsWithDisk D.Disk d.old d.new result }
{
    let mut sector = [0u8; 512];
    get_sector(d, CONTROL_SECTOR, &mut sector)?;
    encode_control_into(control, &mut sector);
    put_gate(d, CONTROL_SECTOR, &sector)
}
