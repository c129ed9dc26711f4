//! What a session shows of a merge that goes on by itself.
ghost use Rattle.vab_blind.specs.Blind.{HidesTheMerge};

/// However many turns a session makes between two packets, it tells the same, up to the first
/// packet behind the begin of a merge that may show how far the merge is. Where memory is refused
/// is the same in both.
pub fn hides_the_merge()
    ensures { HidesTheMerge }
{}
