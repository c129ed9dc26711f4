//! The merge of an update: the gates at which it begins and ends, and its turns, of which those of
//! a run of blocks are made at once.
#![tactic(auto)]

mod beginning;
mod counts;
mod ending;
mod kept;
mod merging;
mod next;
mod own;
mod part;
mod run;
mod turns;

pub use beginning::begin_merge;
pub use counts::left;
pub use merging::merge;
