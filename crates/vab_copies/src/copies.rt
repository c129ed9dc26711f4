//! Both copies of a text.

ghost use Rattle.std.specs.Prelude.{◌≡◌, ◌<◌, ◌≤◌, ◌+◌, OnOk};
ghost use Rattle.vab_disk.specs.Disk.{Adds};
ghost use Rattle.vab_disk.specs.Calls.{IsAtRest, Touches, FailsWithDisk};
ghost use Rattle.vab_copies.specs.Copies.{with_text, IsOfEither, LeavesCopies};

use crate::copy::write_copy;
use vab_disk::Disk;
use vab_gate::DiskFault;

/// Writes a text into `count` sectors from sector `primary` on, and when it stands there, from
/// sector
/// `backup` on.
pub fn store_copies<D: Disk>(
    d: &mut D,
    primary: u64,
    backup: u64,
    count: u64,
    text: &[u8],
) -> Result<(), DiskFault>
    requires some { 0 < count }
    requires apart { primary + count ≤ backup }
    requires on_disk { backup + count ≤ D.size d.old }
    ensures written { D.is_modelled → OnOk result
        (D.seen d.new
        ≡ with_text count text.now (with_text count text.now (D.seen d.old) primary) backup) }
    ensures settled { D.is_modelled → OnOk result (IsAtRest D.Disk d.new) }
    ensures touches { Touches D.Disk (IsOfEither count primary backup text.now) d.old d.new }
    // Where nothing was pending, the backup is the old one until the primary is the new one.
    ensures copies { D.is_modelled
        → IsAtRest D.Disk d.old
        → Adds D.moment D.outcomes d.old d.new
        (LeavesCopies (D.told d.old) (D.seen d.old) count primary backup text.now) }
    ensures faults { FailsWithDisk D.Disk d.old d.new result }
{
    write_copy(d, primary, count, text)?;
    write_copy(d, backup, count, text)
}
