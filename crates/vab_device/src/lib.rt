//! What the bytes of a whole disk mean: the state of a device and where its partitions stand, or
//! the first thing that is wrong; and what is kept of a device between two commands.
#![tactic(auto)]

mod device;
mod fault;

pub use device::{Device, Part, PartImage, PhaseKind};
pub use fault::StartFault;
