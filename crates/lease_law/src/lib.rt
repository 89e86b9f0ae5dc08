//! The timed lease as a law of the book of a run: at most one server accepts writes.
#![tactic(auto)]

mod laws;

pub use laws::{
    carried, delivery_is_shown, feeds_in_time, input_is_shown, local_action_is_shown,
    nobody_pauses, one_writer, premises_fall, same_store, the_mode_is_the_declared_one,
};
