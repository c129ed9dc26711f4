//! The state of a device as a model of its own: images as bytes, slots, and where an update stands;
//! and, as definitions, the machine: what each command makes of it, all but the refusal of a table
//! that is full. Nothing here knows of sectors, tables or the order of writes.
#![tactic(auto)]

mod command;
mod copy;
mod fault;
mod staged;
mod state;

pub use command::{Command, Refusal, Reply};
pub use fault::NoMemory;
pub use staged::is_sparse;
pub use state::{GroupLimit, Image, Overlay, Phase, Physical, Plan, PlanEntry, PlanImage, State};
