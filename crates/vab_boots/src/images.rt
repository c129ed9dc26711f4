//! Which images a slot has.
ghost use Rattle.vab_boots.specs.Images.{CancelDropsTarget, FinishedIsPlan, OthersKeepImages};

/// Where an installation ends, the target's images are those of its plan: what was written, and the
/// source's where a partition is kept. A cancel takes them, and leaves the source's. No other
/// command but the begin of a merge and a wipe changes the images of a slot.
pub fn finished_images()
    ensures target { FinishedIsPlan }
    ensures cancelled { CancelDropsTarget }
    ensures others { OthersKeepImages }
{}
