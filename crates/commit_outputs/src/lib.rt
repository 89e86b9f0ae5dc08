//! What outputs of agents bring is allowed actions of the law of commits: one after another where they stand alone; or they are covered by
//! the input of the law that brings them.
#![tactic(auto)]

mod laws;

pub use laws::{covered_outputs_leave_commits, outputs_are_actions};
