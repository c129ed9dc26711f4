//! Adopting a disk whose `super` somebody else has written.
#![tactic(auto)]

mod adopting;
mod count;
mod dropped;
mod fault;
mod heads;
mod reading;

pub use adopting::adopt_device;
pub use count::Adopted;
pub use fault::AdoptFault;
