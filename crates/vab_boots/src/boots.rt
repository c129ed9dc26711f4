//! There is always a slot that boots.
ghost use Rattle.vab_boots.specs.Begun.{BegunIsAlone, StaysAlone};
ghost use Rattle.vab_boots.specs.Boots.{EachBoots, EachIsAlone, EachWorks};

/// On each disk that is a device a slot works, and a boot goes to one with images. Where no update
/// is ready the slot that works alone has images, and a boot goes to it.
pub fn always_boots()
    ensures works { EachWorks }
    ensures boots { EachBoots }
    ensures alone { EachIsAlone }
{}

/// Where the begin of a merge is done, the target alone has images, those that it had, and a boot
/// goes to it. It stays so at each step of each command but the end of another installation and a
/// wipe.
pub fn begun_merge_stands_alone()
    ensures begun { BegunIsAlone }
    ensures stays { StaysAlone }
{}
