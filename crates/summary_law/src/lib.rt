//! Why the closing summary of a run tells what its book says, and what that says of writers and of commits.
#![tactic(auto)]

mod laws;
mod sight_laws;

pub use laws::{
    few_events_lose, lateness_is_determined, premises_guard_commits, premises_guard_writers,
    summary_tells_the_book, writers_are_listed,
};
pub use sight_laws::{measured_sights_suffice, sights_are_right};
