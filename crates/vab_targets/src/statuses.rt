//! Where the status of a flashed partition goes.
ghost use Rattle.vab_targets.specs.Statuses.{FlashFindsFree};

/// On each device a flash that is done finds a sector for its status that is all zeros: each status
/// is of another partition of the target, which has at most as many partitions as there are sectors
/// of statuses under the mark's version.
pub fn finds_free_status()
    ensures free { FlashFindsFree }
{}
