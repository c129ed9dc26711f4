//! Why a run of the program ends otherwise than done, and the text of it for people.
#![tactic(auto)]

mod adopting;
mod bytes;
mod cause;
mod making;
mod opening;
mod session;
mod set;

pub use cause::Cause;
