//! Each input of the decision table is lawful by the law of the timed lease.
#![tactic(auto)]

mod laws;

pub use laws::{inputs_are_lawful, starts_are_lawful};
