//! Which calls fail of what the program is handed.
use std::alloc::{AllocError, Global};

/// The numbers, from 1, of the calls that fail of what goes by this word, as `out `, by a line as `out 3, err 1`.
pub fn failing(alloc: Global, faults: &str, word: &str) -> Result<Vec<u64>, AllocError> {
    let mut calls = Vec::new(alloc);
    for fault in faults.split(", ") {
        if let Some(call) = fault.strip_prefix(word).and_then(|call| call.parse().ok()) {
            calls.push(call)?;
        }
    }
    Ok(calls)
}
