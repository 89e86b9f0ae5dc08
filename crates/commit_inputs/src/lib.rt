//! Inputs of agents uphold kept commits in synchronous mode: what an input brings is allowed actions of their law, one after another.
#![tactic(auto)]

mod laws;

pub use laws::inputs_uphold_commits;
