//! The page of a device: what a person reads first of it, a line for each thing that it says. Its
//! form is this project's own.
#![tactic(auto)]

mod law;
mod line;
mod order;
mod overlay;
mod page;
mod plan;
mod slot;

pub use law::names_in_order;
pub use line::bytes_of;
pub use overlay::{exceptions, store_blocks};
pub use page::status_page;
