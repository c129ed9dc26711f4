//! A text kept in two copies, of which one is always whole.
#![tactic(auto)]

mod copies;
mod copy;
mod read;
mod text;

pub use copies::store_copies;
pub use copy::{rewrite_copy, write_copy};
pub use read::{ReadFault, read_text};
