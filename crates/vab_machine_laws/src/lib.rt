//! Laws that tie the plain machine to disks: what a command makes of a device is what the machine
//! makes of its state, or the device's table is full, or a wipe's image is that of another device;
//! and what the machine's writes over a partition read as.
#![tactic(auto)]

mod edits;
mod sizes;
mod slots;
mod writes;

pub use edits::{each_command_is_the_machines, edits_are_the_machines};
pub use sizes::devices_are_small;
pub use slots::{ends_are_the_machines, flashes_are_the_machines, slots_are_the_machines};
pub use writes::{last_write_is_read, writes_are_the_machines};
