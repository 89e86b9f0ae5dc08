//! What the line of a request says.
use crate::LineBytes;
use std::alloc::{AllocError, Global};

/// What the line of a request says: the words of any request, behind the member that it is for.
#[derive(Drop)]
pub struct RequestWords {
    /// Its method.
    pub method: LineBytes,
    /// Its target.
    pub target: LineBytes,
    /// Its body, which may be empty.
    pub body: LineBytes,
}

impl RequestWords {
    ghost use Rattle.std.specs.Prelude.{◌≡◌, IfOk};
    ghost use Rattle.std.specs.Str.{IsUtf8};

    /// The request of this method, this target and this body. It fails only for want of memory.
    pub fn new(
        alloc: Global,
        method: &[u8],
        target: &[u8],
        body: &[u8],
    ) -> Result<RequestWords, AllocError>
        ensures { IfOk result (λ request. request ≡ record { method = method.now; target = target.now; body = body.now }) }
    {
        Ok(RequestWords {
            method: LineBytes::new(alloc, method)?,
            target: LineBytes::new(alloc, target)?,
            body: LineBytes::new(alloc, body)?,
        })
    }

    /// Its target as text.
    pub fn target_text(&self) -> &str
        requires { IsUtf8 self.now.target }
        ensures { result.now ≡ self.now.target }
    {
        self.target.as_text()
    }
}
