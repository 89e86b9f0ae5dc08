//! That what is printed of a run is read as what happened.
#![tactic(auto)]

mod laws;

pub use laws::printed_is_read_again;
