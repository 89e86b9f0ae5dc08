//! That premises aren't reported broken without cause: what every run tells where a watchdog is fed, where a member leads outside the sync
//! key, and where one takes over its server. Nothing here runs, and nothing has a premise.
#![tactic(auto)]

mod laws;

pub use laws::{
    runs_feed_on_their_grants, runs_note_where_they_take_over, runs_pass_outside_the_sync_key,
};
