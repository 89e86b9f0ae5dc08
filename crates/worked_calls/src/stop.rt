//! Why a row of a table has no answer.
use std::alloc::{AllocError, AllocFailed};
use std::io;

#[derive(Drop)]
pub enum Stop {
    Memory,
    /// Its words aren't understood, or what is set up doesn't meet what the call wants.
    Unknown,
}

impl From<AllocError> for Stop {
    fn from(_: AllocError) -> Stop {
        Stop::Memory
    }
}

impl<T: Drop> From<AllocFailed<T>> for Stop {
    fn from(_: AllocFailed<T>) -> Stop {
        Stop::Memory
    }
}

impl From<Stop> for io::Error {
    fn from(_: Stop) -> io::Error {
        io::Error::from(io::ErrorKind::OutOfMemory)
    }
}

/// What is there, or that the words aren't understood.
pub fn known<T: Drop>(found: Option<T>) -> Result<T, Stop> {
    match found {
        Some(value) => Ok(value),
        None => Err(Stop::Unknown),
    }
}
