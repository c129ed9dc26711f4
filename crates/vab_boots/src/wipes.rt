//! What a wipe of `super` leaves.
ghost use Rattle.vab_boots.specs.Wiped.{RefusedWipeKeeps, WipeIsWhole, WipedIsEmpty};

/// Where a wipe is done, the current slot has exactly the partitions of the staged image, each
/// empty, and its groups; the other slot, boot control, the cap and the phase are as before. At
/// each step that is so, or all is as it was, and one that isn't done changes nothing.
pub fn wiped_slot_is_empty()
    ensures done { WipedIsEmpty }
    ensures whole { WipeIsWhole }
    ensures refused { RefusedWipeKeeps }
{}
