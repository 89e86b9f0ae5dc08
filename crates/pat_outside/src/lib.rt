//! The outside, as sources and sinks of bytes: each call may fail, and the count of faults tells that it did.
#![tactic(auto)]

mod adapters;
mod discard;
mod memory;
mod outside;
mod transfer;

pub use adapters::{ReaderSource, WriterSink};
pub use discard::Discard;
pub use memory::{MemorySink, MemorySource};
pub use outside::{Failed, Sink, Source};
pub use transfer::{ReadError, read_at_most, write_all};
