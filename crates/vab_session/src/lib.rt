//! A fastboot session over a device: the hello, then exchange after exchange, each with its
//! replies.
#![tactic(auto)]

mod answer;
mod between;
mod fault;
mod kept;
mod law;
mod session;
mod tell;

pub use answer::MAX_DATA;
pub use fault::{Ended, SessionFault};
pub use kept::KeptDevice;
pub use law::told_choices;
pub use session::{MAX_SESSION, serve, serve_up_to, serve_with};
