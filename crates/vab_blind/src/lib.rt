//! A law of sessions: which replies may show how far a merge is.
#![tactic(auto)]

mod blind;

pub use blind::hides_the_merge;
