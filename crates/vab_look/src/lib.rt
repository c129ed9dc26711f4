//! The pages of `vablook`: what a disk says, as text, with nothing written. Their form is this
//! project's own.
#![tactic(auto)]

mod check;
mod copies;
mod entries;
mod facts;
mod fault;
mod form;
mod image;
mod law;
mod line;
mod opening;
mod part;
mod place;
mod status;
mod stores;
mod tables;

pub use check::check_text;
pub use fault::fault_text;
pub use form::Form;
pub use image::{CopyFault, copy_image};
pub use law::the_first_fault_is_told;
pub use place::Place;
pub use status::status_text;
pub use stores::stores_text;
pub use tables::tables_text;
