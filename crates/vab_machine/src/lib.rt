//! The plain machine as a program: it computes what each command makes of a state, as the
//! definitions of `vab_model` say it in sizes, names, groups and bytes. Nothing here knows of
//! sectors, a device's tables, or where a partition stands.
#![tactic(auto)]

mod answer;
mod boots;
mod change;
mod count;
mod create;
mod edit;
mod flash;
mod images;
mod keep;
mod machine;
mod over;
mod overlay;
mod parts;
mod physical;
mod ready;
mod slots;
mod small;
mod staged;
mod wipe;

pub use machine::step;
pub use small::is_small;
