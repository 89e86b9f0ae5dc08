//! Moments at which an operator has something done later (Patroni's documentation of the REST API, "Switchover and
//! failover endpoints" and "Restart endpoint"): how one is read, and whether it has come.
#![tactic(auto)]

mod clock;
mod fault;
mod laws;
mod reading;

pub use clock::FIRST_SECOND;
pub use fault::MomentFault;
pub use laws::{
    fractions_round_up, moments_are_first_ticks, one_moment_has_many_texts,
    some_texts_are_no_moment, what_is_read_is_to_come,
};
pub use reading::{is_due, moment};
