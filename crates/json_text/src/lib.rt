//! The compact text of a JSON value that was read: it is no longer, and it is read again.
#![tactic(auto)]

mod laws;

pub use laws::{compact_texts_are_no_longer, compact_texts_are_read_again};
