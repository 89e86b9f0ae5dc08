//! Texts that are put together of pieces.
ghost use Rattle.std.specs.Prelude.{◌≡◌, ◌++◌, OnOk, string_bytes};
ghost use Rattle.std.specs.List.{flat_map};

use std::alloc::AllocError;

/// Appends pieces, one after another. It fails only for want of memory.
pub fn append(line: &mut String, pieces: &[&str]) -> Result<(), AllocError>
    ensures { OnOk result (string_bytes line.new ≡ string_bytes line.old ++ flat_map (λ piece. piece.now) pieces.now) }
{
    for piece in pieces {
        line.push_str(piece)?;
    }
    Ok(())
}
