//! A port that shows on a line how far the work over it is.
#![tactic(auto)]

mod line;
mod metered;

pub use metered::Metered;
