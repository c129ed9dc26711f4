//! A partition that is read through its exception store.
#![tactic(auto)]

mod reading;

pub use reading::read_block;
