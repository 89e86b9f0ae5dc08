//! The closing summary of a run, noted event by event: it keeps no event.
#![tactic(auto)]

mod closing;
mod head;
mod noting;
mod sighting;
mod summary;
mod watch;
mod writers;

pub use closing::closing_text;
pub use summary::Summary;
pub use watch::Watch;
