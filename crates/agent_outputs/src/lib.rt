//! What the outputs of an input make of the machine.
#![tactic(auto)]

mod laws;

pub use laws::outputs_make_the_machine;
