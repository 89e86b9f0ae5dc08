//! The rows of an agent's decision table, one by one: what holds of each row that applies holds of the whole. And what an input brings at
//! most, which is proved so.
#![tactic(auto)]

mod laws;

pub use laws::inputs_are_small;
