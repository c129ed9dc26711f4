//! What the installation of an update writes: the begin of an update, its mark, and a partition's
//! image, into an exception store or into its own blocks.
#![tactic(auto)]

mod begin;
mod blocks;
mod control;
mod fault;
mod in_place;
mod mark;
mod snapshot;

pub use begin::prepare_begin;
pub use blocks::{Differing, list_differing};
pub use control::{cleared, put_info};
pub use fault::PartFault;
pub use in_place::write_image;
pub use mark::put_mark;
pub use snapshot::write_snapshot;
