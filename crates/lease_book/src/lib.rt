//! What the law of the lease reads of a book is what the book leaves.
#![tactic(auto)]

mod laws;

pub use laws::{
    beginnings_fall, deliveries, example, fed_by_grants, heard, inputs_send, same_book,
    same_flight, same_machines, waiting,
};
