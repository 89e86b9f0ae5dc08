//! With synchronous mode on, runs keep each acknowledged commit on every server that accepts writes, and required lists and sync key in order;
//! and in every mode they tell the first loss.
#![tactic(auto)]

mod laws;

pub use laws::{runs_keep_commits, runs_keep_sync_order, runs_tell_losses};
