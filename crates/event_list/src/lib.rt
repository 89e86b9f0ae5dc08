//! The events of a step. Silent ones, which print nothing and which the summary doesn't count, aren't kept, but for the first of the step.
#![tactic(auto)]

mod list;
mod rousing;
mod silence;
mod stirring;

pub use list::EventList;
