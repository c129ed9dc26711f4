//! The geometry of dynamic partitions: how long a copy of a table is, and how many slots there are.
#![tactic(auto)]

mod decode;
mod encode;
mod geometry;
mod load;

pub use decode::decode_geometry;
pub use encode::encode_geometry;
pub use geometry::{Geometry, GeometryFault};
pub use load::{BACKUP, LoadFault, PRIMARY, SUPER, load_geometry};
