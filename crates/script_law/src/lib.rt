//! Laws of scripts: what is read as one is spelled so, what is spelled as one is read as it, and its canonical spelling is.
#![tactic(auto)]

mod laws;

pub use laws::{canonical_spelling_is_read, read_is_spelled, spelled_is_read, within_limits};
