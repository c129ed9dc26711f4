//! Numbers, names and sums in bytes.
#![tactic(auto)]

mod bytes;
mod crc;
mod listing;
mod name;
mod number;

pub use bytes::Bytes;
pub use crc::crc32;
pub use listing::Listing;
pub use name::{BadName, Name36};
pub use number::{le16_at, le32_at, le64_at, put_le16, put_le32, put_le64};
