//! What happens on the stage of a world by the doing of agents, servers and operators: each by the events of the model.
#![tactic(auto)]

pub mod carrying;
mod obeying;
mod repairing;
pub mod servers;
mod sleepers;
mod telling;
pub mod wakes;

pub use sleepers::Sleepers;
