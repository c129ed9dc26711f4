//! Making a device.

ghost use Rattle.std.specs.Prelude.{◌≡◌, ◌≤◌, ◌%◌, ◌^◌, ℕ, List, length, Ok, OnOk, IfErr};
ghost use Rattle.vab_disk.specs.Disk.{Adds, DiskFailed};
ghost use Rattle.vab_disk.specs.Calls.{IsAtRest, InSectors, Touches, FailsWithDisk};
ghost use Rattle.vab_set.specs.Spelling.{IsSet};
ghost use Rattle.vab_make.specs.Made.{made_control, refusal_of};
ghost use Rattle.vab_make.specs.Making.{Gives, IsOfDisk, IsMade, LeavesMaking};
ghost use Rattle.vab_marks.specs.declared.version.MarkVersion.TheVariants.{Two};
ghost use Rattle.vab_marks.specs.Mark.{mark_of, idle_mark};
ghost use Rattle.vab_marks.specs.Version.{version_in};
ghost use Rattle.vab_make.specs.Prepared.{IsMost, HasRoom, IsPrepared};
ghost use Rattle.vab_make.specs.Touched.{IsOfContents, IsOfMaking};
ghost use Rattle.vab_bootctl.specs.Control.{control_of, KeepsRest};
ghost use Rattle.vab_make.specs.Steps.{HasAll, HasPlaces, blanked};

use crate::control::put_control;
use crate::fault::MakeFault;
use crate::images::put_images;
use crate::prepared::prepare;
use crate::tables::put_places;
use std::alloc::Global;
use vab_disk::Disk;
use vab_gate::{DiskFault, put_gate, settle};
use vab_marks::{MarkPhase, UpdateMark, encode_mark};
use vab_set::Set;

// The disk sector of the update mark.
const MARK: u64 = 2048;

// The sector of the mark of a device without an update, with images in slot a.
fn mark_sector() -> [u8; 512]
    ensures mark { mark_of result ≡ Ok (idle_mark 0) }
    ensures version { version_in result ≡ Two }
{
    encode_mark(&UpdateMark {
        phase: MarkPhase::Idle,
        slot: 0,
        apart: false,
        overlaid: false,
        physical: false,
    })
}

// Writes the contents of the device: all but the mark.
fn put_contents<D: Disk>(d: &mut D, set: &Set, max: u32, text: &[u8]) -> Result<(), DiskFault>
    requires most { IsMost max }
    requires room { HasRoom set.now (D.size d.old) }
    requires fits { length text.now ≤ max }
    ensures all { D.is_modelled → OnOk result (HasAll set.now max text.now (D.seen d.new)) }
    ensures rest { D.is_modelled
        → OnOk result (KeepsRest (blanked (D.seen d.old 4)) (D.seen d.new 4)) }
    ensures touches { Touches D.Disk (InSectors (IsOfContents set.now max)) d.old d.new }
    ensures faults { FailsWithDisk D.Disk d.old d.new result }
{
    put_places(d, max, text)?;
    put_images(d, set)?;
    put_control(d)
}

// Writes the contents of the device, and syncs.
fn settle_contents<D: Disk>(d: &mut D, set: &Set, max: u32, text: &[u8]) -> Result<(), DiskFault>
    requires most { IsMost max }
    requires room { HasRoom set.now (D.size d.old) }
    requires fits { length text.now ≤ max }
    ensures all { D.is_modelled → OnOk result (HasAll set.now max text.now (D.seen d.new)) }
    ensures rest { D.is_modelled
        → OnOk result (KeepsRest (blanked (D.seen d.old 4)) (D.seen d.new 4)) }
    ensures settled { D.is_modelled → OnOk result (IsAtRest D.Disk d.new) }
    ensures touches { Touches D.Disk (InSectors (IsOfContents set.now max)) d.old d.new }
    ensures faults { FailsWithDisk D.Disk d.old d.new result }
{
    put_contents(d, set, max, text)?;
    settle(d)
}

// Makes the device whose table has this text: from the first gate on the disk is none, and with the
// last it is this one.
fn make_on<D: Disk>(d: &mut D, set: &Set, max: u32, text: &[u8]) -> Result<(), DiskFault>
    requires most { IsMost max }
    requires room { HasRoom set.now (D.size d.old) }
    requires fits { length text.now ≤ max }
    ensures made { D.is_modelled
        → (limit : ℕ)
        → IsPrepared set.now limit max (D.size d.old) text.now
        → OnOk result (IsMade set.now limit max (D.size d.old) (D.seen d.new)) }
    ensures copies { D.is_modelled → OnOk result (HasPlaces max text.now (D.seen d.new)) }
    ensures control { D.is_modelled
        → OnOk result (control_of (D.seen d.new 4) ≡ Ok made_control) }
    ensures version { D.is_modelled → OnOk result (version_in (D.seen d.new 2048) ≡ Two) }
    ensures rest { D.is_modelled
        → OnOk result (KeepsRest (blanked (D.seen d.old 4)) (D.seen d.new 4)) }
    ensures settled { D.is_modelled → OnOk result (IsAtRest D.Disk d.new) }
    ensures touches { Touches D.Disk (InSectors (IsOfMaking set.now max)) d.old d.new }
    ensures time { D.is_modelled
        → (limit : ℕ)
        → IsPrepared set.now limit max (D.size d.old) text.now
        → IsAtRest D.Disk d.old
        → Adds D.moment D.outcomes d.old d.new
        (LeavesMaking (D.told d.old) set.now limit max (D.size d.old) (D.seen d.old)) }
    ensures faults { FailsWithDisk D.Disk d.old d.new result }
{
    put_gate(d, MARK, &[0u8; 512])?;
    settle_contents(d, set, max, text)?;
    put_gate(d, MARK, &mark_sector())
}

/// Makes the device whose slot a has the images of a set, filled with zeros to whole blocks, and is
/// current and successful with priority 15, and whose slot b has none. `limit` is that of the group
/// `main` in bytes, 0 for none; `max` is the most bytes of a copy of a table, a multiple of 512.
/// The refusals come in the order of `MakeFault`, each exactly where it says, and the disk isn't
/// asked then. A disk that fails, or a cut of power, leaves the disk as it was, or no device, or
/// the made one.
pub fn make_device<D: Disk>(
    alloc: Global,
    d: &mut D,
    set: &Set,
    limit: u64,
    max: u32,
) -> Result<(), MakeFault>
    requires set { IsSet set.now }
    requires limit { limit ≤ 2 ^ 44 }
    requires max_sectors { max % 512 ≡ 0 }
    requires max_least { 512 ≤ max }
    requires max_most { max ≤ 65536 }
    ensures exact { Gives result (refusal_of set.now limit max (D.size d.old)) }
    ensures made { D.is_modelled
        → OnOk result (IsMade set.now limit max (D.size d.old) (D.seen d.new)) }
    // Both copies of the geometry and of the table are there.
    ensures copies { D.is_modelled
        → OnOk result ((text : List ℕ) × HasPlaces max text (D.seen d.new)) }
    // The boot control is there as a whole, also what it says of slot b, which has no images.
    ensures control { D.is_modelled
        → OnOk result (control_of (D.seen d.new 4) ≡ Ok made_control) }
    // The mark has version 2.
    ensures version { D.is_modelled → OnOk result (version_in (D.seen d.new 2048) ≡ Two) }
    // The boot control's sector stays behind the 32 bytes of the boot control.
    ensures rest { D.is_modelled
        → OnOk result (KeepsRest (blanked (D.seen d.old 4)) (D.seen d.new 4)) }
    ensures settled { D.is_modelled → OnOk result (IsAtRest D.Disk d.new) }
    ensures untouched { IfErr result (λ f. (IsOfDisk f → ⊥) → d.new ≡ d.old) }
    ensures touches { Touches D.Disk (InSectors (IsOfMaking set.now max)) d.old d.new }
    ensures time { D.is_modelled
        → IsAtRest D.Disk d.old
        → Adds D.moment D.outcomes d.old d.new
        (LeavesMaking (D.told d.old) set.now limit max (D.size d.old) (D.seen d.old)) }
    ensures steady { OnOk result (D.faults d.new ≡ D.faults d.old) }
    ensures cause { IfErr result (λ f. IsOfDisk f
        → DiskFailed (D.faults d.old) (D.faults d.new)) }
{
    let text = prepare(alloc, set, limit, max, d.sectors())?;
    make_on(d, set, max, &text)?;
    Ok(())
}
