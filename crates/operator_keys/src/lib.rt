//! Checks of what operators ask of an agent, before it is done: a switchover, a failover, a restart, a reinitialization,
//! a change of the configuration; and of the failsafe request of another member.
#![tactic(auto)]

mod asked;
mod body;
mod candidates;
mod checks;
mod config_checks;
mod failing_over;
mod failsafe_checks;
mod laws;
mod refusal;
mod server_checks;

pub use checks::{check_failover, check_switchover};
pub use config_checks::{ConfigChange, check_configuration, configuration_in};
pub use failsafe_checks::check_failsafe;
pub use laws::{
    keys_name_whom_bodies_name, what_a_failover_names, what_a_failsafe_request_asks,
    what_a_switchover_names,
};
pub use refusal::{CheckFault, Refused};
pub use server_checks::{check_reinit, check_restart};
