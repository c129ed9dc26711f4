//! The bytes of an exception store: the header and the areas of the kernel's dm-snapshot persistent
//! store, version 1.
#![tactic(auto)]

mod area;
mod header;

pub use area::{AREA_ENTRIES, Area, Exception, decode_area, encode_area};
pub use header::{HeaderFault, decode_store_header, encode_store_header};
