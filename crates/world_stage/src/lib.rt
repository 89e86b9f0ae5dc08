//! The stage of a world: what a cluster has at a moment, and the one place where an event changes it and is written down.
#![tactic(auto)]

mod arrival;
mod beginning;
mod stage;

pub use arrival::Arrival;
pub use beginning::begin_on;
pub use stage::Stage;
