//! The tables of an update: the target's as the update begins, what edits make of it, and a slot's
//! table without stores, or with a store over one of its partitions.
#![tactic(auto)]

mod applied;
mod change;
mod counts;
mod create;
mod delete;
mod edit;
mod fault;
mod find;
mod fitting;
mod free;
mod groups;
mod imported;
mod judge;
mod names;
mod overlay;
mod parts;
mod resize;
mod room;
mod sizes;
mod store;
mod tables;
mod wanted;

pub use applied::apply;
pub use edit::Edit;
pub use fault::EditFault;
pub use overlay::{blocks_beside, has_own, with_overlay};
pub use tables::{import, without_stores};
