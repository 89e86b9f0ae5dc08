//! What plays the steps of a run, whoever it is: who plays, prints and serves runs needs no more of a world than `Simulation` says.
#![tactic(auto)]

mod simulation;

pub use simulation::Simulation;
