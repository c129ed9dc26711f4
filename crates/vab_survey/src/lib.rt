//! What a disk says part by part, with nothing written: the copies of its tables, its stores, and
//! what is wrong with each part.
#![tactic(auto)]

mod copies;
mod finding;
mod found;
mod geometries;
mod parts;
mod stores;
mod survey;
mod tables;

pub use copies::SlotTable;
pub use finding::Finding;
pub use geometries::Geometries;
pub use parts::Parts;
pub use stores::{StoreRow, store_rows};
pub use survey::{Details, Survey, survey_disk};
pub use tables::{TablesPage, tables_page};
