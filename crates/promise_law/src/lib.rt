//! The promises of the program: what every run keeps, and that its closing summary is true. They follow from the laws of runs alone.
#![tactic(auto)]

mod laws;

pub use laws::runs_keep_promises;
