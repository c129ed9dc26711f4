//! A fastboot session as a relation on its whole input, and a reader of its exchanges. An exchange
//! is a command packet, whether memory is refused to it, and the data packets behind it.
#![tactic(auto)]

mod budget;
mod fault;
mod law;
mod reader;
mod tell;

pub use fault::ReadFault;
pub use law::one_session;
pub use reader::Reader;
pub use tell::say_all;
