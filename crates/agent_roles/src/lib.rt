//! An agent's role, its lease, its watchdog and what it knows: what an input may bring of them.
#![tactic(auto)]

mod laws;

pub use laws::{
    a_grant_feeds_the_watchdog, agents_stay_sound, only_a_grant_lets_lead,
    only_a_grant_sets_deadlines, role_fits_server,
};
