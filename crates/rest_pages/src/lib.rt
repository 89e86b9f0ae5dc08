//! The pages of the REST interface of an agent: the JSON that each answers.
#![tactic(auto)]

mod cluster;
mod configuration;
mod failsafe;
mod history;
mod laws;
mod patroni;
mod tags;

pub use cluster::cluster_text;
pub use configuration::config_text;
pub use failsafe::failsafe_text;
pub use history::history_text;
pub use laws::{
    all_but_the_leader_lag, config_is_that_of_the_snapshot, failsafe_has_who_is_listed,
    patroni_tells_the_role, roles_are_those_of_the_keys,
};
pub use patroni::patroni_text;
