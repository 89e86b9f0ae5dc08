//! Who is owed what the agent of a member replies later: the client, or the line, that asked it last and got no reply at once.
#![tactic(auto)]

mod laws;
mod owing;
mod waiting;

pub use laws::{
    members_are_apart, no_result_comes_when_it_is_due, nobody_gets_anothers_reply,
    nobody_is_answered_twice,
};
pub use owing::Owing;
pub use waiting::{Debt, Outcome, Owner};
