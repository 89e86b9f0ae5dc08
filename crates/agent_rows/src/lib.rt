//! The rows of the decision table: what an agent does on each input.
#![tactic(auto)]

mod acknowledging;
mod decisions;
mod hearing;
mod peers;
mod snapshots;
mod wake;

pub use hearing::take_input;
pub use wake::{due_from, is_due};
