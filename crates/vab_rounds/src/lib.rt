//! Many runs of the program, one after another, each begun on what a cut of power left of the one
//! before.
#![tactic(auto)]

mod rounds;

pub use rounds::{
    chains_are_rounds, ends_a_merge, keeps_images, keeps_what_finish_gave, many_rounds,
    runs_are_rounds, stays_alone,
};
