//! What each program does before anything else: it opens the standard descriptors that are closed,
//! and reads the words of its command line.
#![tactic(auto)]

mod standard;
mod words;

pub use standard::{Standard, open_standard};
pub use words::{WordsFault, words_of};
