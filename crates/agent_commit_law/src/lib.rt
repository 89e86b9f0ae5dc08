//! With the synchronous mode on each input of the decision table is lawful by the law of kept commits.
#![tactic(auto)]

mod laws;

pub use laws::inputs_keep_commits;
