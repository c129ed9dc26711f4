//! What a factory install leaves.
ghost use Rattle.vab_targets.specs.Written.{ApartKeepsNothing, FinishGivesWritten};

/// On a disk of whole sectors that is a device: where the target stands apart, its plan keeps no
/// image of the source, and the end of the installation gives the target what was written.
pub fn finishes_with_what_was_written()
    ensures kept { ApartKeepsNothing }
    ensures finished { FinishGivesWritten }
{}
