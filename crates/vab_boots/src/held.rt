//! What the physical partitions of a slot hold.
ghost use Rattle.vab_boots.specs.Held.{EachIsSpared, FinishedHolds, SparedHolds};

/// The physical partitions of a slot hold the same at each step of each command, while the slot has
/// images and no command writes it, as on a device each slot with images. Where an installation
/// ends, each of the target's holds something, which stays: so a slot gets its physical images and
/// its others at once.
pub fn physical_images_stay()
    ensures holds { SparedHolds }
    ensures each { EachIsSpared }
    ensures finished { FinishedHolds }
{}
