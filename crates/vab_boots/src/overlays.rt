//! What an overlay leaves of a device.
ghost use Rattle.vab_boots.specs.Overlaid.{StepsLeaveTheRest, OverlaysLeaveTheRest};
ghost use Rattle.vab_boots.specs.Overlaid.{DiscardGivesBack};
ghost use Rattle.vab_boots.specs.Read.{WritesAreRead};
ghost use Rattle.vab_boots.specs.Sessions.{OverlaysBegin, SessionsWrite, SessionsWriteWhole};
ghost use Rattle.vab_boots.specs.Sessions.{WrittenIsRead};

/// The commands of an overlay change nothing of a device but the overlay: at each step of one, and
/// behind any list of them, with any staged bytes, the images of both slots, the groups, boot
/// control, the phase and the tables' layouts are as before. A discard that is done behind any of
/// them gives a device that had no overlay back as it was.
pub fn overlay_leaves_the_device()
    ensures steps { StepsLeaveTheRest }
    ensures lists { OverlaysLeaveTheRest }
    ensures discard { DiscardGivesBack }
{}

/// Behind the begin of an overlay that is done, and any writes, each with any staged bytes and done
/// or refused, each block of the partition reads as the last write to it that was done, and else as
/// the image that the begin has found.
pub fn writes_are_read()
    ensures { WritesAreRead }
{}

/// The same of sessions, of which what `run` promises says that each outcome has all acknowledged
/// packets and some of the situations of one more: from the begin of an overlay on, and behind any
/// packets that write over it, ask for a variable or bring data, those writes that were done stand
/// behind the earlier ones, in this session and those before it; one that is cut is written whole
/// or not at all; and each block reads as the last of them.
pub fn sessions_write_over()
    ensures begin { OverlaysBegin }
    ensures write { SessionsWrite }
    ensures whole { SessionsWriteWhole }
    ensures read { WrittenIsRead }
{}
