//! The commands on slots and on images: what they write, and their replies.
#![tactic(auto)]

mod blocks;
mod change;
mod control;
mod images;
mod reading;
mod slots;

pub use blocks::{kept_part, locate, read_block};
pub use images::{digest, print};
pub use slots::{boot, mark, set_active};
