//! What the rows of several inputs share about leading: what a member does that gets the leader key, and what a leader owes its cluster.
#![tactic(auto)]

mod claiming;
mod handing_over;
mod leading;
mod planning;
mod staying;

pub use claiming::{claim_fails, claim_granted};
pub use handing_over::{hear_successor, judge_if_leading};
pub use leading::{
    leader_kept, leader_renewed, leader_renewed_in_pause, take_key, take_key_in_pause, take_late,
    unleased_renewed, unleased_renewed_in_pause, unleased_unarmed,
};
pub use planning::settle;
pub use staying::{failsafe_answered, leader_unanswered, unacknowledged};
