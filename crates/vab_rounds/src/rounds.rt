//! Laws of rounds.
ghost use Rattle.vab_rounds.specs.Alone.{RunsKeepImages, RunsStayAlone};
ghost use Rattle.vab_rounds.specs.Chains.{AdoptingBeginsRounds, ChainsAreRounds};
ghost use Rattle.vab_rounds.specs.Chains.{MakingBeginsRounds};
ghost use Rattle.vab_rounds.specs.Ended.{MergesHaveEnded};
ghost use Rattle.vab_rounds.specs.Finished.{FinishedImagesAreMerged, FinishedImagesLast};
ghost use Rattle.vab_rounds.specs.Folds.{RoundsBoot, RoundsFold, SessionsFold};
ghost use Rattle.vab_rounds.specs.Merges.{MergesEnd};
ghost use Rattle.vab_rounds.specs.Runs.{AdoptingIsRound, MakingIsRound, RunsAreRounds};

use vab_disk::Port;

/// The device after many rounds is what the acknowledged commands make of the first one, in their
/// order, and of at most one command more a round some first steps. A boot of it goes to a slot
/// with images.
pub fn many_rounds()
    ensures fold { RoundsFold }
    ensures sessions { SessionsFold }
    ensures boots { RoundsBoot }
{}

/// Where a slot alone has images and no update is ready, as from the begin of a merge on, it keeps
/// them behind many rounds, or an update was ready on the way, or the slot was wiped.
pub fn stays_alone()
    ensures { RunsStayAlone }
{}

/// From any moment on at which a slot alone has images, or the update that was installed from it is
/// ready, it keeps them behind many rounds, or a merge from it was begun on the way, or it was
/// wiped.
pub fn keeps_images()
    ensures { RunsKeepImages }
{}

/// However often a merge is cut, it ends once its acknowledged commands have asked for one turn
/// more than blocks were left; the target has its images byte for byte.
pub fn ends_a_merge()
    // At some moment, counted from any moment of the merge on, whatever the runs do behind it.
    ensures ended { MergesHaveEnded }
    // In the end, where no run begins an update or ends its installation; or the target was wiped
    // on the way.
    ensures last { MergesEnd }
{}

/// The images that the end of an installation gave are those of the target from then on, whatever
/// is cut, until they are given up; and they are the ones that it has where its merge has ended.
pub fn keeps_what_finish_gave()
    ensures last { FinishedImagesLast }
    ensures merged { FinishedImagesAreMerged }
{}

/// What `run` promises, for any words, of a run that is cut: it is a round. Where a device is made
/// first, or a disk adopted, it is one of that device, or the cut was before its last gate.
pub fn runs_are_rounds<P: Port>()
    ensures runs { RunsAreRounds P.Disk }
    ensures making { MakingIsRound P.Disk }
    ensures adopting { AdoptingIsRound P.Disk }
{}

/// Runs of the program, for any words and each begun on what a cut of power left of the one before,
/// are rounds, so that all that is said of rounds holds of them. Where the first one makes a
/// device, or adopts a disk, they are rounds of that device, or it was cut before its last gate.
pub fn chains_are_rounds<P: Port>()
    ensures runs { ChainsAreRounds P.Disk }
    ensures making { MakingBeginsRounds P.Disk }
    ensures adopting { AdoptingBeginsRounds P.Disk }
{}
