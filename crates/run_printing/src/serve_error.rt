//! Why connections weren't all served.
ghost use Rattle.std.specs.Prelude.{◌≡◌};
ghost use Rattle.run_printing.specs.Errors.{serve_error};
ghost use Rattle.run_printing.specs.declared.serve_error.ServeError.TheVariants.{Memory};

use crate::PrintError;
use std::alloc::AllocError;
use thiserror::Error;

/// Why connections weren't all served, or the output isn't whole.
#[derive(Clone, Copy, Debug, PartialEq, Eq, Error)]
pub enum ServeError {
    #[error("out of memory")]
    Memory,
    #[error("write fault")]
    Write,
    /// The door couldn't be opened, or brought no connection.
    #[error("door fault")]
    Door,
}

impl From<AllocError> for ServeError {
    ghost from_gives = { λ _ e. e ≡ Memory };

    fn from(_: AllocError) -> Self {
        ServeError::Memory
    }
}

impl From<PrintError> for ServeError {
    ghost from_gives = { λ error e. e ≡ serve_error error };

    fn from(error: PrintError) -> Self {
        match error {
            PrintError::Memory => ServeError::Memory,
            PrintError::Write => ServeError::Write,
        }
    }
}
