//! Reading the exceptions of a store, and whether they end clean.
#![tactic(auto)]

mod clean;
mod list;
mod reading;

pub use clean::ends_clean;
pub use reading::scan;
