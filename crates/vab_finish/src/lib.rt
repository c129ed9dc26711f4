//! The end of an update's installation: its target has images, and may be set active.
#![tactic(auto)]

mod finishing;
mod kept;
mod ready;

pub use finishing::finish;
