//! Which step a leader in synchronous mode takes next, to change who its synchronous standbys are.
#![tactic(auto)]

mod candidates;
mod laws;
mod member_sets;
mod naming;
mod planning;
mod standbys;
mod steps;

pub use laws::{
    published_standbys_stay_required, what_a_step_changes, when_the_key_is_marked_or_removed,
    who_is_published, who_is_wanted,
};
pub use naming::named;
pub use planning::plan;
pub use steps::Plan;
