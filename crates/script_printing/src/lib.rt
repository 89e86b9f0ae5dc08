//! The canonical text of a script.
#![tactic(auto)]

mod command_printing;
mod head_printing;
mod option_printing;
mod printing;
mod word_printing;

pub use printing::print;
