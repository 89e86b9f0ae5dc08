//! Whoever asks for the leader key of a revision had it, in every run.
#![tactic(auto)]

mod laws;

pub use laws::{agents_ask_for_their_own_leases, runs_ask_for_their_own_leases};
