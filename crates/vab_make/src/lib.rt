//! Making a device of a set of images.
#![tactic(auto)]

mod checks;
mod control;
mod fault;
mod images;
mod layout;
mod making;
mod prepared;
mod tables;

pub use checks::{capacity, set_blocks};
pub use fault::MakeFault;
pub use making::make_device;
