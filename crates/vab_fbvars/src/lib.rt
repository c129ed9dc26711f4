//! The variables of a device, as a fastboot session tells them. Source: the fastboot README,
//! protocol 0.4, and Android's fastbootd; the values are this project's.
#![tactic(auto)]

mod hexadecimal;
mod images;
mod slots;
mod text;

pub use hexadecimal::put_hexadecimal;
pub use text::variable;
