//! Which events orders of agents and commands on servers come to, and that these may come.
#![tactic(auto)]

pub mod order_kinds;
pub mod server_commands;
