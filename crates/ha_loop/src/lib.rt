//! The agent of a member: what it does on what it hears, by its decision table.
#![tactic(auto)]

mod agent;

pub use agent::Agent;
pub use agent_turn::Outputs;
