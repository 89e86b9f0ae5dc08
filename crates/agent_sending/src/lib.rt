//! What an agent sends and waits for, and that it keeps failsafe mode as it is declared.
#![tactic(auto)]

mod laws;

pub use laws::{the_mode_is_kept, what_is_asked_is_waited_for};
