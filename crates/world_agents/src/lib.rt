//! The agents of the world: how each stands at its member's place, what a happening changes of them, and what they answer to requests.
#![tactic(auto)]

pub mod places;
pub mod requests;

pub use ha_loop::{Agent, Outputs};
