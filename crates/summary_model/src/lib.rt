//! What the closing summary of a run tells of its book, by definition, and its text.
#![tactic(auto)]

mod answers;
mod texts;

pub use answers::{Breach, Closing, FirstMoment, Premises, SERVERS, Seen, Synchronous, WatchOf};
