//! Kept commits as a law of the book of a run whose events are allowed actions: each server that accepts writes holds every acknowledged
//! commit, and required lists and sync key are in order.
#![tactic(auto)]

mod actions;
mod order;

pub use actions::{actions_are_shown, carried, carried_sets, commits_are_kept, lease_gives};
pub use order::{order_is_kept, publications_are_confirmed};
