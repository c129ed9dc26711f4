//! A disk that holds writes back and reads ahead, over a store of sectors that is read and written
//! in long runs.
#![tactic(auto)]

mod buffered;
mod run;
mod sectorwise;
mod store;

pub use buffered::Buffered;
pub use sectorwise::Sectorwise;
pub use store::RunStore;
