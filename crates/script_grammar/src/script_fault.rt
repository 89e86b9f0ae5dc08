//! Why no script was read.
ghost use Rattle.std.specs.Prelude.{◌≡◌};
ghost use Rattle.script_grammar.specs.declared.script_fault.ScriptFault.TheVariants.{Memory};

use script_words::Fault;
use std::alloc::{AllocError, AllocFailed};
use thiserror::Error;

/// Why no script was read.
#[derive(Clone, Copy, Debug, PartialEq, Eq, Error)]
pub enum ScriptFault {
    /// Want of memory: nothing is said of the bytes.
    #[error("out of memory")]
    Memory,
    /// The first line that has a fault, counted from 1, and its first fault.
    #[error("line {line}: {fault}")]
    At { line: u64, fault: Fault },
}

impl From<AllocError> for ScriptFault {
    ghost from_gives = { λ _ e. e ≡ Memory };

    fn from(_: AllocError) -> Self {
        ScriptFault::Memory
    }
}

impl<T: Drop> From<AllocFailed<T>> for ScriptFault {
    ghost from_gives = { λ _ e. e ≡ Memory };

    fn from(_: AllocFailed<T>) -> Self {
        ScriptFault::Memory
    }
}
