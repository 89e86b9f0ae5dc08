//! Why the output of a run isn't whole.
ghost use Rattle.std.specs.Prelude.{◌≡◌};
ghost use Rattle.run_printing.specs.declared.print_error.PrintError.TheVariants.{Memory, Write};

use pat_outside::Failed;
use std::alloc::AllocError;
use thiserror::Error;

/// Why the output of a run isn't whole.
#[derive(Clone, Copy, Debug, PartialEq, Eq, Error)]
pub enum PrintError {
    #[error("out of memory")]
    Memory,
    #[error("write fault")]
    Write,
}

impl From<AllocError> for PrintError {
    ghost from_gives = { λ _ e. e ≡ Memory };

    fn from(_: AllocError) -> Self {
        PrintError::Memory
    }
}

impl From<Failed> for PrintError {
    ghost from_gives = { λ _ e. e ≡ Write };

    fn from(_: Failed) -> Self {
        PrintError::Write
    }
}
