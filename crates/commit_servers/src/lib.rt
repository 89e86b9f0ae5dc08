//! What happens to the servers and the logs of a cluster, as actions of the law of commits.
#![tactic(auto)]

mod happenings;
mod laws;

pub use happenings::{
    acknowledgements, beginnings, commands, orders_leave_sound, repairs, streams, ticks,
};
pub use laws::{
    actions_keep_commits, all_fits, events_are_actions, example, required_is_met, same_servers,
    servers_are_sound,
};
