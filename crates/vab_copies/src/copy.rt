//! One copy of a text.

ghost use Rattle.std.specs.Prelude.{◌≡◌, ◌<◌, ◌≤◌, ◌+◌, OnOk};
ghost use Rattle.vab_disk.specs.Disk.{Adds};
ghost use Rattle.vab_disk.specs.Calls.{IsAtRest, Touches, FailsWithDisk};
ghost use Rattle.vab_copies.specs.Copies.{with_text, with_rest, IsOfText, IsOfCopy, LeavesCopy};

use crate::text::{sector_of, write_sectors};
use vab_disk::Disk;
use vab_gate::{DiskFault, SECTOR, put_gate, settle};

/// Writes a text into `count` sectors from sector `at` on, its last sector filled up with zeros.
/// First its first sector is zeros, then the other sectors are written, and then the first; what
/// was written is synced after each of these.
pub fn write_copy<D: Disk>(d: &mut D, at: u64, count: u64, text: &[u8]) -> Result<(), DiskFault>
    requires some { 0 < count }
    requires on_disk { at + count ≤ D.size d.old }
    ensures written { D.is_modelled → OnOk result
        (D.seen d.new ≡ with_text count text.now (D.seen d.old) at) }
    ensures settled { D.is_modelled → OnOk result (IsAtRest D.Disk d.new) }
    ensures touches { Touches D.Disk (IsOfCopy count at text.now) d.old d.new }
    // Where nothing was pending, the copy is the old one, or begins with zeros, or is the new one.
    ensures copy { D.is_modelled
        → IsAtRest D.Disk d.old
        → Adds D.moment D.outcomes d.old d.new
        (LeavesCopy (D.told d.old) (D.seen d.old) (with_text count text.now (D.seen d.old) at) at
        count) }
    ensures faults { FailsWithDisk D.Disk d.old d.new result }
{
    put_gate(d, at, &[0; SECTOR])?;
    write_rest(d, at, count, text)?;
    put_gate(d, at, &sector_of(text, 0))
}

// Writes all sectors of a text but the first, and syncs them, where there are any.
fn write_rest<D: Disk>(d: &mut D, at: u64, count: u64, text: &[u8]) -> Result<(), DiskFault>
    requires some { 0 < count }
    requires on_disk { at + count ≤ D.size d.old }
    ensures written { D.is_modelled → OnOk result
        (D.seen d.new ≡ with_rest 1 count text.now (D.seen d.old) at) }
    ensures settled { D.is_modelled → IsAtRest D.Disk d.old → OnOk result (IsAtRest D.Disk d.new) }
    ensures touches { Touches D.Disk (IsOfText 1 count at text.now) d.old d.new }
    ensures faults { FailsWithDisk D.Disk d.old d.new result }
{
    if count == 1 {
        return Ok(());
    }
    write_sectors(d, at, 1, count, text)?;
    settle(d)
}

/// Writes a text into `count` sectors from sector `at` on, its last sector filled up with zeros,
/// and then syncs. A cut may leave any mixture of the old sectors and the new: for a copy that
/// isn't needed.
pub fn rewrite_copy<D: Disk>(d: &mut D, at: u64, count: u64, text: &[u8]) -> Result<(), DiskFault>
    requires { at + count ≤ D.size d.old }
    ensures written { D.is_modelled → OnOk result
        (D.seen d.new ≡ with_text count text.now (D.seen d.old) at) }
    ensures settled { D.is_modelled → OnOk result (IsAtRest D.Disk d.new) }
    ensures touches { Touches D.Disk (IsOfText 0 count at text.now) d.old d.new }
    ensures faults { FailsWithDisk D.Disk d.old d.new result }
{
    write_sectors(d, at, 0, count, text)?;
    settle(d)
}
