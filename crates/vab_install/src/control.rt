//! Boot control, before an update is written.

ghost use Rattle.std.specs.Prelude.{◌≡◌, ◌<◌, OnOk};
ghost use Rattle.vab_disk.specs.Calls.{Touches, FailsWithDisk};
ghost use Rattle.vab_bootctl.specs.Control.{Fits};
ghost use Rattle.vab_install.specs.Control.{cleared_of, HasControl, IsControl};

use vab_bootctl::{Control, Info, encode_control_into};
use vab_disk::Disk;
use vab_gate::{DiskFault, SECTOR, get_sector, put_sector};

/// The disk sector of the boot control.
const CONTROL_SECTOR: u64 = 4;

/// What boot control says of a slot that is never booted.
const NO_INFO: Info = Info {
    priority: 0,
    tries: 0,
    successful: false,
};

/// Boot control with nothing said of this slot: priority 0, no tries, not successful.
#[tactic(auto, unfolding(crate::specs::Control::cleared_of))]
pub fn cleared(control: &Control, slot: usize) -> Control
    requires { slot < 2 }
    ensures exact { result ≡ cleared_of control.now slot }
    ensures fits { Fits control.now → Fits result }
{
    if slot == 0 {
        Control {
            a: NO_INFO,
            ..*control
        }
    } else {
        Control {
            b: NO_INFO,
            ..*control
        }
    }
}

/// Writes the boot control into its sector, and doesn't sync. All other bits of the sector stay.
pub fn put_info<D: Disk>(d: &mut D, control: &Control) -> Result<(), DiskFault>
    requires on_disk { 4 < D.size d.old }
    requires fits { Fits control.now }
    ensures sector { D.is_modelled
        → OnOk result (HasControl control.now (D.seen d.old) (D.seen d.new)) }
    // It touches that sector alone.
    ensures touches { Touches D.Disk
        (IsControl D.is_modelled control.now (D.seen d.old 4)) d.old d.new }
    ensures faults { FailsWithDisk D.Disk d.old d.new result }
{
    let mut sector = [0u8; SECTOR];
    get_sector(d, CONTROL_SECTOR, &mut sector)?;
    encode_control_into(control, &mut sector);
    put_sector(d, CONTROL_SECTOR, &sector)
}
