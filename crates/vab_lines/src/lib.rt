//! The lines that are told of making a device or adopting one: each is text in ASCII and one
//! newline byte.
#![tactic(auto)]

mod lines;

pub use lines::{adopted_line, made_line, make_refused_line};
