//! What the law of kept commits reads of a book is what the book leaves: its keys, and its messages in flight; and what comes to the key
//! store is an allowed action.
#![tactic(auto)]

mod laws;

pub use laws::{decisions, deliveries, example, heard, same_book, waiting};
