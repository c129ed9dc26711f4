//! Boot control of a device with two slots: its sector of the misc partition, and the rules of
//! which slot is booted.
#![tactic(auto)]

mod boot;
mod sector;
mod slots;

pub use boot::{activated, booted, choose, marked};
pub use sector::{ControlFault, decode_control, encode_control_into};
pub use slots::{Control, Info};
