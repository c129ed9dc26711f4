//! The program over a port: the words of the command line, what they do, and the status that it
//! ends with.
#![tactic(auto)]

mod acts;
mod adopting;
mod commands;
mod demo;
mod ending;
mod installing;
mod line;
mod making;
mod noting;
mod opening;
mod paging;
mod printing;
mod program;
mod serving;
mod status;
mod telling;

pub use ending::Ending;
pub use program::run;
pub use status::Status;
