//! Why bytes are no request.
use std::alloc::AllocError;
use thiserror::Error;

/// Why bytes are no request, or why one wasn't read. All but `Memory` are answered 400 (RFC 9110, section 15.5.1).
#[derive(Clone, Copy, Debug, PartialEq, Eq, Error)]
pub enum RequestFault {
    /// The bytes within the limit of a head aren't one, and no bytes behind them make them one.
    #[error("BadHead")]
    BadHead,
    /// The head doesn't end within its limit, or `Content-Length` is above that of the content.
    #[error("TooLong")]
    TooLong,
    /// `Content-Length` stands there twice, or isn't a decimal number.
    #[error("BadLength")]
    BadLength,
    /// Memory was wanting.
    #[error("Memory")]
    Memory,
}

impl From<AllocError> for RequestFault {
    ghost use Rattle.std.specs.Prelude.{◌≡◌};
    ghost use Rattle.rest_request.specs.declared.fault.RequestFault.TheVariants as faults;

    ghost from_gives = { λ _ e. e ≡ faults.Memory };

    fn from(_: AllocError) -> Self {
        RequestFault::Memory
    }
}
