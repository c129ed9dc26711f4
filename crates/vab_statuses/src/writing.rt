//! Statuses that are written.

ghost use Rattle.std.specs.Prelude.{◌≡◌, ◌+◌, ◌<◌, ◌≤◌, List, Option, Some, None, Ok, OnOk};
ghost use Rattle.vab_disk.specs.Disk.{LeavesEither, Adds, IsAt, set_sector};
ghost use Rattle.vab_disk.specs.Calls.{IsAtRest, InSectors, Touches, FailsWithDisk};
ghost use Rattle.vab_marks.specs.declared.status.PartStatus.{PartStatus};
ghost use Rattle.vab_marks.specs.Status.{status_spelling, status_of};
ghost use Rattle.vab_statuses.specs.Statuses.{IsOfStatuses, statuses_in, free_in, written_in};
ghost use Rattle.vab_statuses.specs.Statuses.{status_named, with_status, no_statuses};
ghost use Rattle.vab_statuses.specs.Statuses.{first_status, status_sectors};

use crate::{FIRST_STATUS, STATUS_SECTORS};
use vab_disk::Disk;
use vab_gate::{DiskFault, put_gate, zero_sectors};
use vab_marks::{PartStatus, encode_status};

/// Writes zeros over the sectors of the statuses, and doesn't sync.
pub fn clear_statuses<D: Disk>(d: &mut D) -> Result<(), DiskFault>
    requires { first_status + status_sectors ≤ D.size d.old }
    ensures none { D.is_modelled
        → OnOk result (statuses_in (D.seen d.new) ≡ Ok no_statuses) }
    ensures touches { Touches D.Disk (InSectors IsOfStatuses) d.old d.new }
    ensures faults { FailsWithDisk D.Disk d.old d.new result }
{
    zero_sectors(d, FIRST_STATUS, STATUS_SECTORS)
}

/// Writes a status into this sector and syncs. At `Ok` the sector is new and nothing is pending.
pub fn put_status<D: Disk>(d: &mut D, at: u64, status: &PartStatus) -> Result<(), DiskFault>
    requires { at < D.size d.old }
    ensures written { D.is_modelled → OnOk result
        (D.seen d.new ≡ set_sector (D.seen d.old) at (status_spelling status.now)) }
    // What is written is read back.
    ensures read { status_of (status_spelling status.now) ≡ Ok status.now }
    // In the first free sector it joins the others, where none of them is of this partition.
    ensures joins { D.is_modelled
        → (statuses : List (Option PartStatus))
        → statuses_in (D.seen d.old) ≡ Ok statuses
        → free_in statuses ≡ Some at
        → status_named status.now.name (written_in statuses) ≡ None
        → OnOk result (statuses_in (D.seen d.new) ≡ Ok (with_status statuses at status.now)) }
    ensures settled { D.is_modelled → OnOk result (IsAtRest D.Disk d.new) }
    ensures touches { Touches D.Disk (IsAt at (status_spelling status.now)) d.old d.new }
    // Where nothing was pending, each outcome is the old disk or the one with that sector new.
    ensures gate { D.is_modelled
        → IsAtRest D.Disk d.old
        → Adds D.moment D.outcomes d.old d.new
        (LeavesEither (D.told d.old) (D.seen d.old)
        (set_sector (D.seen d.old) at (status_spelling status.now))) }
    ensures faults { FailsWithDisk D.Disk d.old d.new result }
{
    put_gate(d, at, &encode_status(status))
}
