//! What boots while a set is installed.
ghost use Rattle.vab_boots.specs.Installed.{InstallKeepsRunning, InstallNeedsNoUpdate};

/// While a set is installed, the running slot keeps its images, and a boot goes to it until all of
/// the set is installed and the other slot is set active. Where there is an update already, nothing
/// is done.
pub fn running_slot_stays()
    ensures running { InstallKeepsRunning }
    ensures unready { InstallNeedsNoUpdate }
{}
