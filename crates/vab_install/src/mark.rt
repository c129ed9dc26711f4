//! Writing the update mark.

ghost use Rattle.std.specs.Prelude.{◌≡◌, ◌<◌, Ok, OnOk};
ghost use Rattle.vab_disk.specs.Disk.{LeavesEither, Adds, IsAt, set_sector};
ghost use Rattle.vab_disk.specs.Calls.{IsAtRest, Touches, FailsWithDisk};
ghost use Rattle.vab_marks.specs.Mark.{FitsMark, mark_spelling, mark_of};

use vab_disk::Disk;
use vab_gate::{DiskFault, put_gate};
use vab_marks::{UpdateMark, encode_mark};

/// The disk sector of the update mark.
const MARK_SECTOR: u64 = 2048;

/// Writes the update mark and syncs. At `Ok` the mark is new and nothing is pending.
pub fn put_mark<D: Disk>(d: &mut D, mark: &UpdateMark) -> Result<(), DiskFault>
    requires on_disk { 2048 < D.size d.old }
    requires fits { FitsMark mark.now }
    ensures written { D.is_modelled → OnOk result
        (D.seen d.new ≡ set_sector (D.seen d.old) 2048 (mark_spelling mark.now)) }
    // What is written is read back.
    ensures read { mark_of (mark_spelling mark.now) ≡ Ok mark.now }
    ensures settled { D.is_modelled → OnOk result (IsAtRest D.Disk d.new) }
    ensures touches { Touches D.Disk (IsAt 2048 (mark_spelling mark.now)) d.old d.new }
    // Where nothing was pending, each outcome is the old disk or the one with that mark.
    ensures gate { D.is_modelled
        → IsAtRest D.Disk d.old
        → Adds D.moment D.outcomes d.old d.new
        (LeavesEither (D.told d.old) (D.seen d.old)
        (set_sector (D.seen d.old) 2048 (mark_spelling mark.now))) }
    ensures faults { FailsWithDisk D.Disk d.old d.new result }
{
    put_gate(d, MARK_SECTOR, &encode_mark(mark))
}
