//! The boot control of the device that is made.

ghost use Rattle.std.specs.Prelude.{◌≡◌, ◌<◌, OnOk};
ghost use Rattle.vab_disk.specs.Calls.{InSectors, Touches, FailsWithDisk};
ghost use Rattle.vab_make.specs.Made.{made_control};
ghost use Rattle.vab_make.specs.Steps.{blanked, HasControl};

use vab_bootctl::{Control, Info, encode_control_into};
use vab_disk::Disk;
use vab_gate::{DiskFault, get_sector, put_sector};

// The disk sector of boot control.
const CONTROL: u64 = 4;

// Slot a is current and successful with the highest priority, slot b has nothing.
fn made_control() -> Control
    ensures { result ≡ made_control }
{
    Control {
        current: 0,
        a: Info {
            priority: 15,
            tries: 0,
            successful: true,
        },
        b: Info {
            priority: 0,
            tries: 0,
            successful: false,
        },
    }
}

// Zeroes what the sum covers.
fn blank(sector: &mut [u8; 512])
    ensures { sector.new ≡ blanked sector.old }
{
    sector[..28].copy_from_slice(&[0u8; 28]);
}

// Writes boot control; the bytes of its sector behind the sum stay.
pub fn put_control<D: Disk>(d: &mut D) -> Result<(), DiskFault>
    requires { 4 < D.size d.old }
    ensures control { D.is_modelled → OnOk result (HasControl (D.seen d.old) (D.seen d.new)) }
    ensures touches { Touches D.Disk (InSectors (λ s. s ≡ 4)) d.old d.new }
    ensures faults { FailsWithDisk D.Disk d.old d.new result }
{
    let mut sector = [0u8; 512];
    get_sector(d, CONTROL, &mut sector)?;
    blank(&mut sector);
    encode_control_into(&made_control(), &mut sector);
    put_sector(d, CONTROL, &sector)
}
