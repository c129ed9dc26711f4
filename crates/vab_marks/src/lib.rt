//! The update mark of a device, the statuses of the partitions that an update wrote, and the sizes
//! of physical partitions: a sector each.
#![tactic(auto)]

mod mark;
mod physical;
mod sector;
mod status;
mod version;

pub use mark::{MarkPhase, UpdateMark, decode_mark, encode_mark};
pub use physical::{PhysicalSizes, decode_physical, encode_physical};
pub use sector::MarkFault;
pub use status::{PartStatus, StatusImage, decode_status, encode_status};
pub use version::MarkVersion;
