//! How large the states of devices are.
ghost use Rattle.vab_machine_laws.specs.Sizes.{DevicesAreSmall};

/// The state of a device that is kept beside a disk of whole sectors is small enough for the
/// machine's `step`. What `start` opens and a command leaves are such devices.
pub fn devices_are_small()
    ensures { DevicesAreSmall }
{}
