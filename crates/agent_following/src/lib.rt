//! What an agent does that doesn't lead: its server follows who does and has its log repaired by that one's, it races for a leader key
//! that is free, and it ends a server that is live without the key.
#![tactic(auto)]

mod following;
mod keyless;
mod racing;
mod repairing;

pub use following::follow_row;
pub use keyless::{
    leader_finds_free, leader_without_key, unleased_finds_free, unleased_without_key,
};
pub use racing::{finds_free, judge, judge_if_racing};
pub use repairing::{put_repair, repair_of};
