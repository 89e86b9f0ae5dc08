//! Failsafe mode: a leader that loses the key store asks all other members, and goes on where each of them acknowledges it
//! (Patroni documentation, "DCS Failsafe Mode").
#![tactic(auto)]

mod asks;
mod holding;
mod laws;
mod listing;

pub use asks::Ask;
pub use holding::may_hold;
pub use laws::{each_yes_counts_once, one_silent_member_is_enough, who_is_listed};
pub use listing::{set_to_write, without_member};
