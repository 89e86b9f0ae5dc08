//! What happens on the stage of a world in a step of a script: its parts, one after another, each by the events of the model.
#![tactic(auto)]

mod ctl;
mod lull;
mod messages;
mod requests;
mod steps;

pub use lull::Lull;
pub use steps::take_step;
pub use world_ticks::idling::{due_from, ends_from};
pub use world_ticks::ticks::bare_tick;
