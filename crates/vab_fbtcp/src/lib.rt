//! The framing of fastboot over TCP, version 1: a hello of four bytes, then packets, each behind
//! the eight bytes of its length, the high byte first.
#![tactic(auto)]

mod event;
mod framer;

pub use event::{Event, FrameFault, Place};
pub use framer::{Framer, MAX_COMMAND, MAX_PIECE, laws_of_cutting};
