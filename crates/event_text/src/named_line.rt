//! Lines that begin with a moment and a name.
ghost use Rattle.std.specs.Prelude.{◌≡◌, ◌++◌, OnOk, codes, string_bytes};
ghost use Rattle.std.specs.Fmt.{decimal};
ghost use Rattle.pat_base.specs.Name.{name_bytes};

use pat_base::{Name, Ticks};
use std::alloc::AllocError;

/// Appends a moment, a name, and the words behind it. It fails only for want of memory.
pub fn write_named_line(
    line: &mut String,
    tick: Ticks,
    name: Name,
    words: &str,
) -> Result<(), AllocError>
    ensures { OnOk result (string_bytes line.new ≡ string_bytes line.old ++ (decimal tick.0 ++ (codes " " ++ (name_bytes name ++ words.now)))) }
{
    write!(line, "{tick} {name}{words}")
}
