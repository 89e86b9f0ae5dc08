//! What the law of one writer reads of a cluster, and that the parts of a step but inputs of agents uphold it. Its lemmas have that every
//! run upholds what all parts of its steps do.
#![tactic(auto)]

mod laws;

pub use laws::{parts_uphold_one_writer, runs_begin_bridged};
