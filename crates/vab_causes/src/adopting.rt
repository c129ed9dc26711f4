// Why a disk isn't adopted, and what adopting it has dropped.

use crate::opening::write_opening;
use std::fmt;
use vab_adopt::AdoptFault;
use vab_marks::{MarkPhase, UpdateMark};

fn phase_text(phase: MarkPhase) -> &'static str {
    match phase {
        MarkPhase::Installing => "was being installed from",
        MarkPhase::Staged => "was ready, from",
        MarkPhase::Merging => "was being merged in",
        MarkPhase::Idle | MarkPhase::Completed => "had ended in",
    }
}

/// Writes why a disk wasn't adopted.
pub(crate) fn write_adopting<W: fmt::Write>(
    f: &mut fmt::Formatter<W>,
    fault: &AdoptFault,
) -> fmt::Result {
    match fault {
        AdoptFault::AlreadyDevice => write!(f, "refused: already a device"),
        AdoptFault::NoDevice(fault) => write_opening(f, fault),
    }
}

/// Writes which update or overlay was dropped.
pub(crate) fn write_dropped<W: fmt::Write>(
    f: &mut fmt::Formatter<W>,
    mark: &UpdateMark,
) -> fmt::Result {
    let slot = if mark.slot == 0 { "a" } else { "b" };
    if mark.overlaid {
        return write!(
            f,
            "an overlay is dropped: by its mark a partition of slot {slot} was written over"
        );
    }
    write!(
        f,
        "an update is dropped: by its mark it {} slot {slot}",
        phase_text(mark.phase)
    )
}
