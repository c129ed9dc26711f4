//! Images of a set as bytes.
#![tactic(auto)]

mod content;
mod fault;
mod reading;
mod set;
mod writing;

pub use content::Content;
pub use fault::{NoMemory, SetFault};
pub use reading::read_set;
pub use set::{Set, SetImage};
pub use writing::write_set;
