//! Bytes of a line, as a command keeps them.
use pat_base::Shared;
use std::alloc::{AllocError, Global};
use std::marker::Model;
use std::str;

/// Bytes of a line. Several may own them.
#[derive(Drop)]
pub struct LineBytes {
    bytes: Shared<Vec<u8>>,
}

impl Model for LineBytes {
    ghost use Rattle.std.specs.Prelude.{ℕ, List};

    ghost Value = { List ℕ };

    ghost view = { λ owned. owned.bytes.items };
}

impl LineBytes {
    ghost use Rattle.std.specs.Prelude.{◌≡◌, IfOk};
    ghost use Rattle.std.specs.Str.{IsUtf8};

    /// These bytes. It fails only for want of memory.
    pub fn new(alloc: Global, bytes: &[u8]) -> Result<LineBytes, AllocError>
        ensures { IfOk result (λ owned. owned ≡ bytes.now) }
    {
        let owned = Vec::from_slice(alloc, bytes)?;
        Ok(LineBytes {
            bytes: Shared::new(alloc, owned)?,
        })
    }

    /// The bytes.
    pub fn as_slice(&self) -> &[u8]
        ensures { result.now ≡ self.now }
    {
        self.bytes.get().as_slice()
    }

    /// The bytes as text.
    pub fn as_text(&self) -> &str
        requires { IsUtf8 self.now }
        ensures { result.now ≡ self.now }
    {
        match str::from_utf8(self.as_slice()) {
            Ok(text) => text,
            Err(_) => unreachable!(),
        }
    }
}
