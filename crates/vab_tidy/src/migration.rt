//! A device whose mark has version 1 goes on with version 2.

ghost use Rattle.std.specs.Prelude.{◌≡◌, ◌<◌, ◌≤◌, IfOk, Ok, OnOk, replicate, ℕ};
ghost use Rattle.vab_disk.specs.Disk.{Adds};
ghost use Rattle.vab_disk.specs.Calls.{InSectors, IsAtRest, OnlyReads, Touches, FailsWithDisk};
ghost use Rattle.vab_marks.specs.declared.version.MarkVersion.TheVariants as versions;
ghost use Rattle.vab_marks.specs.Mark.{FitsMark, mark_of};
ghost use Rattle.vab_device.specs.Reading.{Read, Reads, SameRead, mark_in, version_at};
ghost use Rattle.vab_tidy.specs.Migration.{IsOfAdded, IsOfMigration};
ghost use Rattle.vab_tidy.specs.Stays.{LeavesSame};

use crate::prepared::MARK_SECTOR;
use vab_disk::Disk;
use vab_gate::{DiskFault, SECTOR, get_sector, put_gate, settle, zero_sectors};
use vab_marks::{MarkVersion, UpdateMark, decode_mark, encode_mark};
use vab_statuses::{FIRST_STATUS, STATUS_SECTORS};

/// How many statuses version 1 has.
const OLD_STATUSES: u64 = 32;

// The version of the disk's mark, and the mark as it stands there, where it was read as this one:
// its phase may be that of a merge that has ended.
fn stored_mark<D: Disk>(
    d: &mut D,
    known: &UpdateMark,
) -> Result<(MarkVersion, UpdateMark), DiskFault>
    requires enough { 2048 < D.size d.old }
    requires fits { FitsMark known.now }
    requires mark { D.is_modelled → mark_in (D.seen d.old) ≡ Ok known.now }
    ensures version { D.is_modelled → IfOk result (λ r. r.0 ≡ version_at (D.seen d.old)) }
    ensures mark { D.is_modelled → IfOk result (λ r. mark_of (D.seen d.old 2048) ≡ Ok r.1) }
    ensures fits { IfOk result (λ r. FitsMark r.1) }
    ensures reads { OnlyReads D.Disk d.old d.new }
    ensures faults { FailsWithDisk D.Disk d.old d.new result }
{
    let mut sector = [0u8; SECTOR];
    match get_sector(d, MARK_SECTOR, &mut sector) {
        Err(fault) => Err(fault),
        Ok(()) => {
            let version = MarkVersion::of_mark(&sector);
            match decode_mark(&sector) {
                Ok(mark) => Ok((version, mark)),
                Err(_) => Ok((version, *known)),
            }
        }
    }
}

// Writes zeros over the statuses that version 2 adds, and syncs.
fn zero_added<D: Disk>(d: &mut D) -> Result<(), DiskFault>
    requires { 2113 ≤ D.size d.old }
    ensures zeros { D.is_modelled → OnOk result
        ((s : ℕ) → IsOfAdded s → D.seen d.new s ≡ replicate 512 0) }
    ensures settled { D.is_modelled → OnOk result (IsAtRest D.Disk d.new) }
    ensures touches { Touches D.Disk (InSectors IsOfAdded) d.old d.new }
    ensures faults { FailsWithDisk D.Disk d.old d.new result }
{
    zero_sectors(
        d,
        FIRST_STATUS + OLD_STATUSES,
        STATUS_SECTORS - OLD_STATUSES,
    )?;
    settle(d)
}

// Gives the mark version 2, once the statuses that it adds are none.
fn raise<D: Disk>(d: &mut D, mark: &UpdateMark) -> Result<(), DiskFault>
    requires enough { 4120 ≤ D.size d.old }
    requires fits { FitsMark mark.now }
    requires mark { D.is_modelled → mark_of (D.seen d.old 2048) ≡ Ok mark.now }
    requires old { D.is_modelled → version_at (D.seen d.old) ≡ versions.One }
    ensures version { D.is_modelled
        → OnOk result (version_at (D.seen d.new) ≡ versions.Two) }
    ensures mark { D.is_modelled
        → OnOk result (mark_of (D.seen d.new 2048) ≡ mark_of (D.seen d.old 2048)) }
    ensures same { D.is_modelled
        → (r : Read)
        → Reads (D.size d.old) r (D.seen d.old)
        → OnOk result (SameRead (D.size d.old) r (D.seen d.old) (D.seen d.new)) }
    ensures settled { D.is_modelled → OnOk result (IsAtRest D.Disk d.new) }
    ensures touches { Touches D.Disk (IsOfMigration (D.seen d.old)) d.old d.new }
    ensures time { D.is_modelled
        → IsAtRest D.Disk d.old
        → (r : Read)
        → Reads (D.size d.old) r (D.seen d.old)
        → Adds D.moment D.outcomes d.old d.new
        (LeavesSame (D.told d.old) (D.size d.old) (D.seen d.old)) }
    ensures order { D.is_modelled
        → IsAtRest D.Disk d.old
        → Adds D.moment D.outcomes d.old d.new
        (λ o. mark_of (o.image 2048) ≡ mark_of (D.seen d.old 2048)) }
    ensures faults { FailsWithDisk D.Disk d.old d.new result }
{
    zero_added(d)?;
    put_gate(d, MARK_SECTOR, &encode_mark(mark))
}

/// A disk whose mark has version 1 goes on with version 2: the statuses that it adds are made none,
/// and behind a sync one gate writes the same mark with version 2. The disk is read the same in
/// each outcome. The mark is the one that the disk was read with. Takes no memory.
pub fn migrate<D: Disk>(d: &mut D, known: &UpdateMark) -> Result<(), DiskFault>
    requires enough { 4120 ≤ D.size d.old }
    requires fits { FitsMark known.now }
    requires mark { D.is_modelled → mark_in (D.seen d.old) ≡ Ok known.now }
    ensures version { D.is_modelled
        → OnOk result (version_at (D.seen d.new) ≡ versions.Two) }
    // The mark is the same, that of a merge that has ended among them.
    ensures mark { D.is_modelled
        → OnOk result (mark_of (D.seen d.new 2048) ≡ mark_of (D.seen d.old 2048)) }
    ensures same { D.is_modelled
        → (r : Read)
        → Reads (D.size d.old) r (D.seen d.old)
        → OnOk result (SameRead (D.size d.old) r (D.seen d.old) (D.seen d.new)) }
    ensures settled { D.is_modelled → IsAtRest D.Disk d.old → OnOk result (IsAtRest D.Disk d.new) }
    ensures touches { Touches D.Disk (IsOfMigration (D.seen d.old)) d.old d.new }
    // Where nothing was pending, each outcome means the same, and has the same mark.
    ensures time { D.is_modelled
        → IsAtRest D.Disk d.old
        → (r : Read)
        → Reads (D.size d.old) r (D.seen d.old)
        → Adds D.moment D.outcomes d.old d.new
        (LeavesSame (D.told d.old) (D.size d.old) (D.seen d.old)) }
    ensures order { D.is_modelled
        → IsAtRest D.Disk d.old
        → Adds D.moment D.outcomes d.old d.new
        (λ o. mark_of (o.image 2048) ≡ mark_of (D.seen d.old 2048)) }
    // Where the mark has version 2 nothing is written.
    ensures still { D.is_modelled
        → version_at (D.seen d.old) ≡ versions.Two
        → OnlyReads D.Disk d.old d.new }
    ensures faults { FailsWithDisk D.Disk d.old d.new result }
{
    match stored_mark(d, known) {
        Err(fault) => Err(fault),
        Ok((MarkVersion::Two, _)) => Ok(()),
        Ok((MarkVersion::One, mark)) => raise(d, &mark),
    }
}
