//! What kept commits read of a cluster in synchronous mode, and that the parts of a step but inputs of agents uphold them.
#![tactic(auto)]

mod laws;

pub use laws::{parts_uphold_commits, runs_begin_bridged};
