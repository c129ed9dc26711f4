//! An update or an overlay that is there, and is dropped.

ghost use Rattle.std.specs.Prelude.{◌≡◌, ◌<◌, IfOk};
ghost use Rattle.vab_disk.specs.Calls.{OnlyReads, FailsWithDisk};
ghost use Rattle.vab_marks.specs.Mark.{mark_of};
ghost use Rattle.vab_adopt.specs.Dropped.{dropped, is_update, update_of};

use crate::heads::MARK;
use vab_disk::Disk;
use vab_gate::{DiskFault, get_sector};
use vab_marks::{MarkPhase, UpdateMark, decode_mark};

// Whether there is an update in this phase.
fn is_update(phase: MarkPhase) -> bool
    ensures { result ≡ is_update phase }
{
    match phase {
        MarkPhase::Installing | MarkPhase::Staged | MarkPhase::Merging => true,
        MarkPhase::Idle | MarkPhase::Completed => false,
    }
}

// The mark in the bytes of a sector, where there is an update or an overlay.
fn update_in(sector: &[u8; 512]) -> Option<UpdateMark>
    ensures { result ≡ update_of (mark_of sector.now) }
{
    match decode_mark(sector) {
        Ok(mark) if is_update(mark.phase) || mark.overlaid => Some(mark),
        Ok(_) | Err(_) => None,
    }
}

/// The mark of an update or an overlay that is there. It is read, and no more is asked of the disk;
/// where there are too few sectors for a mark there is none.
pub(crate) fn update_there<D: Disk>(d: &mut D) -> Result<Option<UpdateMark>, DiskFault>
    ensures is { D.is_modelled
        → 2048 < D.size d.old
        → IfOk result (λ m. m ≡ dropped (D.seen d.old)) }
    ensures reads { OnlyReads D.Disk d.old d.new }
    ensures faults { FailsWithDisk D.Disk d.old d.new result }
{
    if d.sectors() <= MARK {
        return Ok(None);
    }
    let mut sector = [0u8; 512];
    get_sector(d, MARK, &mut sector)?;
    Ok(update_in(&sector))
}
