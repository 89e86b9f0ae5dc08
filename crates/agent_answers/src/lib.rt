//! What other members and operators are answered.
#![tactic(auto)]

mod laws;

pub use laws::{
    an_operator_is_answered_once, refusals_and_delays_are_told_for_cause, who_asks_is_answered,
};
