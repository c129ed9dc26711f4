//! The physical partitions `boot` and `vbmeta` of both slots: where they stand, behind `super` on
//! the last sectors of a disk, and how the one is made what the other holds.
#![tactic(auto)]

mod copying;
mod maps;
mod tail;

pub use copying::copy_image;
pub use maps::{PhysicalMaps, boot_name, maps_behind, vbmeta_name};
pub use tail::{SIZES_SECTOR, Tail, put_sizes, read_tail, super_end};
