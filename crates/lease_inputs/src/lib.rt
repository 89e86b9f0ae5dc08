//! Inputs of agents uphold that at most one server accepts writes: each is a lawful action of the law of the timed lease.
#![tactic(auto)]

mod laws;

pub use laws::inputs_uphold_one_writer;
