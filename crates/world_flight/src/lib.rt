//! Messages in flight, and which of them a round has to look at.
#![tactic(auto)]

pub mod flight;
pub mod flight_index;
