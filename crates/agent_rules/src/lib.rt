//! Rules that each input of an agent keeps: what it needs for what it asks and orders.
#![tactic(auto)]

mod laws;

pub use laws::{
    a_due_turn_reads, a_leader_out_of_reach_ends_its_server, in_a_pause_servers_are_left_alone,
    inputs_have_grounds,
};
