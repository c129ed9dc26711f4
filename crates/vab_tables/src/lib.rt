//! The table of logical partitions in the metadata of a `super` block device, as bytes and as
//! values.
//!
//! The public source of the format is AOSP's `metadata_format.h` (liblp), major version 10, minor
//! versions 0 to 2. Numbers are little-endian.
#![tactic(auto)]

mod decode;
mod encode;
mod entries;
mod fault;
mod header;
mod names;
mod rules;
mod table;

pub use decode::decode_table;
pub use encode::encode_table;
pub use entries::{BlockDevice, Extent, Group, Partition};
pub use fault::{EntryKind, NoMemory, TableFault};
pub use header::{needed_size, text_size};
pub use rules::BLOCK_SECTORS;
pub use table::{Table, table_size};
