//! What is replied on a connection to the REST interface of an agent.
#![tactic(auto)]

mod laws;

pub use laws::{a_waiting_reply_is_owed, replies_are_those_of_the_table};
