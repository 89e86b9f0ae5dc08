//! What a leader does at each of its inputs: it takes its turn, renews its key, and leads on.
#![tactic(auto)]

mod laws;

pub use laws::{a_leader_keeps_its_turn, a_leaders_inputs_in_the_cluster};
