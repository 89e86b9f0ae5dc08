//! Scripts that nobody wrote: each is made of a number, and is the same each time.
#![tactic(auto)]

mod drawing;
mod generating;
mod number_sequence;
mod opening;

pub use generating::generate;
