//! An update from a set of images: the commands that install it, one after another.
#![tactic(auto)]

mod carry;
mod installing;
mod stop;

pub use installing::install;
pub use stop::Stop;
