//! Opening a device: what its disk holds, and repairs of what was cut off.
#![tactic(auto)]

mod frame;
mod judge;
mod opening;
mod overlay;
mod plan;
mod probing;
mod read;
mod repairs;
mod stores;
mod table;

pub use frame::{Heads, MIN_SECTORS};
pub use judge::judge_parts;
pub use opening::{open_behind, start};
pub use probing::probe;
pub use read::{
    MARK_SECTOR, read_control, read_end, read_geometry, read_if, read_mark, read_version,
    reads_both, reads_statuses, whole_disk,
};
pub use stores::{Stored, read_stores};
pub use table::{Tables, read_tables};
