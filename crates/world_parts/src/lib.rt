//! What the world is made of, field by field: what a head says of each, what a happening changes of each, and what is seen of servers and processes.
#![tactic(auto)]

pub mod actions;
pub mod changes;
pub mod from_head;
pub mod processes;
pub mod replication;
pub mod server_changes;
pub mod sources;
