//! The health of a member, by what its agent shows.
#![tactic(auto)]

mod checks;
mod freshness;
mod lag;
mod laws;
mod server;

pub use checks::{facts_of, health_of_view};
pub use laws::{
    agents_live_by_their_turns, lag_counts_on_three_paths, no_member_serves_on_both_sides,
    primaries_lead_with_the_key, refused_values_set_no_limit, replicas_serve_within_their_lag,
    standbys_serve_as_named,
};
