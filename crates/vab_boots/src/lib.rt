//! Laws on what boots: on each device a slot does, while a set is installed the running one, and
//! once a merge has begun the new images alone. And on what a wipe of `super` and an overlay leave.
#![tactic(auto)]

mod boots;
mod held;
mod images;
mod installs;
mod overlays;
mod wipes;

pub use boots::{always_boots, begun_merge_stands_alone};
pub use held::physical_images_stay;
pub use images::finished_images;
pub use installs::running_slot_stays;
pub use overlays::{overlay_leaves_the_device, sessions_write_over, writes_are_read};
pub use wipes::wiped_slot_is_empty;
