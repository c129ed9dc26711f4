//! The heads of the device that is adopted: its mark, and its boot control.

ghost use Rattle.std.specs.Prelude.{◌≡◌, ◌≢◌, ◌<◌, ◌≤◌, ℕ, List, OnOk, Ok};
ghost use Rattle.vab_disk.specs.Disk.{Adds};
ghost use Rattle.vab_disk.specs.Calls.{IsAtRest, IsQuiet, Touches, FailsWithDisk};
ghost use Rattle.vab_bootctl.specs.Control.{Fits};
ghost use Rattle.vab_marks.specs.Mark.{mark_of, mark_spelling, idle_mark};
ghost use Rattle.vab_device.specs.Mounted.{Mounted};
ghost use Rattle.vab_make.specs.Steps.{blanked};
ghost use Rattle.vab_model.specs.State.{no_info};
ghost use Rattle.vab_adopt.specs.Adopted.{adopted, adopted_control, good_info};
ghost use Rattle.vab_adopt.specs.Adopted.{IsControlOf, HasHeadsOf};
ghost use Rattle.vab_adopt.specs.Adopting.{IsOfAdopting, IsOfControl, LeavesAdopting};

use vab_bootctl::{Control, Info, encode_control_into};
use vab_disk::Disk;
use vab_gate::{DiskFault, get_sector, put_gate};
use vab_marks::{MarkPhase, UpdateMark, encode_mark};

// The disk sector of boot control.
const CONTROL: u64 = 4;

/// The disk sector of the update mark.
pub(crate) const MARK: u64 = 2048;

/// The mark of a device of this slot without an update.
pub(crate) fn idle_mark(slot: usize) -> UpdateMark
    ensures { result ≡ idle_mark slot }
{
    UpdateMark {
        phase: MarkPhase::Idle,
        slot,
        apart: false,
        overlaid: false,
        physical: false,
    }
}

// A slot that works, with the highest priority.
fn good_info() -> Info
    ensures { result ≡ good_info }
{
    Info {
        priority: 15,
        tries: 0,
        successful: true,
    }
}

// A slot of which nothing is said.
fn no_info() -> Info
    ensures { result ≡ no_info }
{
    Info {
        priority: 0,
        tries: 0,
        successful: false,
    }
}

/// This slot is current and good, and nothing is said of the other.
pub(crate) fn adopted_control(slot: usize) -> Control
    requires { slot < 2 }
    ensures is { result ≡ adopted_control slot }
    ensures fits { Fits result }
{
    if slot == 0 {
        Control {
            current: 0,
            a: good_info(),
            b: no_info(),
        }
    } else {
        Control {
            current: slot,
            a: no_info(),
            b: good_info(),
        }
    }
}

// Zeroes what the sum covers.
fn blank(sector: &mut [u8; 512])
    ensures { sector.new ≡ blanked sector.old }
{
    sector[..28].copy_from_slice(&[0u8; 28]);
}

// Writes boot control by one gate; the bytes of its sector behind the sum stay.
fn put_control<D: Disk>(d: &mut D, slot: usize) -> Result<(), DiskFault>
    requires slot { slot < 2 }
    requires enough { 4 < D.size d.old }
    ensures control { D.is_modelled
        → OnOk result (IsControlOf slot (D.seen d.old 4) (D.seen d.new 4)) }
    ensures others { D.is_modelled
        → OnOk result ((s : ℕ) → s ≢ 4 → D.seen d.new s ≡ D.seen d.old s) }
    ensures settled { D.is_modelled → OnOk result (IsAtRest D.Disk d.new) }
    ensures touches { D.is_modelled
        → Touches D.Disk (IsOfControl slot (D.seen d.old)) d.old d.new }
    ensures quiet { IsQuiet D.Disk d.old d.new }
    ensures faults { FailsWithDisk D.Disk d.old d.new result }
{
    let mut sector = [0u8; 512];
    get_sector(d, CONTROL, &mut sector)?;
    blank(&mut sector);
    encode_control_into(&adopted_control(slot), &mut sector);
    put_gate(d, CONTROL, &sector)
}

/// Writes the heads: from the first gate on the disk is no device, and with the last it is the
/// adopted one.
pub(crate) fn put_heads<D: Disk>(d: &mut D, slot: usize) -> Result<(), DiskFault>
    requires slot { slot < 2 }
    requires enough { 4120 ≤ D.size d.old }
    ensures heads { D.is_modelled → OnOk result (HasHeadsOf slot (D.seen d.old) (D.seen d.new)) }
    ensures settled { D.is_modelled → OnOk result (IsAtRest D.Disk d.new) }
    ensures touches { D.is_modelled
        → Touches D.Disk (IsOfAdopting slot (D.seen d.old)) d.old d.new }
    ensures quiet { IsQuiet D.Disk d.old d.new }
    ensures time { D.is_modelled
        → (m : Mounted)
        → adopted (D.size d.old) slot (D.seen d.old) ≡ Ok m
        → IsAtRest D.Disk d.old
        → Adds D.moment D.outcomes d.old d.new
        (LeavesAdopting (D.told d.old) (D.size d.old) slot (D.seen d.old)) }
    ensures faults { FailsWithDisk D.Disk d.old d.new result }
{
    put_gate(d, MARK, &[0u8; 512])?;
    put_control(d, slot)?;
    put_gate(d, MARK, &encode_mark(&idle_mark(slot)))
}
