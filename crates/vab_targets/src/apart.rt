//! Targets that stand apart from their sources.
ghost use Rattle.vab_targets.specs.Apart.{CreatesLowest, ResizesItself, UsesAll};
ghost use Rattle.vab_targets.specs.Apart.{IsApartAndUpdated};

/// Where no partition of a target has a twin: a new one takes the lowest free blocks, and one at
/// another size keeps its own first blocks; all blocks of both slots are in use; and a partition
/// has no block of the source.
pub fn targets_apart()
    ensures created { CreatesLowest }
    ensures resized { ResizesItself }
    ensures used { UsesAll }
    ensures fresh { IsApartAndUpdated }
{}
