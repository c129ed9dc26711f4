//! The begin of an update, and its cancelling.
#![tactic(auto)]

mod beginning;
mod cancelling;
mod kept;
mod target;

pub use beginning::begin;
pub use cancelling::cancel;
