//! A disk of sectors and a pair of streams, as the code above sees them, with what a cut of power
//! may leave.
#![tactic(auto)]

mod disk;
mod failing;
mod input;
mod memory;
mod record;

pub use disk::{Disk, Failed, Port, PortFault};
pub use failing::Failing;
pub use memory::{Blend, CallKind, MemPort, NoMemory, laws_of_memory};
pub use record::{Call, Sector};
