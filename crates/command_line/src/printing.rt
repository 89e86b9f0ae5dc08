//! Scripts written in their canonical spelling.
ghost use Rattle.std.specs.Prelude.{◌≡◌, IsErrOf};
ghost use Rattle.pat_outside.specs.Prints.{Prints};
ghost use Rattle.script_model.specs.Script.{spelling_of};

use pat_outside::Sink;
use run_printing::{PrintError, print_lines};
use script_model::Script;
use script_printing::print;
use std::alloc::Global;

/// Writes a script as it is spelled canonically, each of its lines in one piece. Where memory is wanting for its text, nothing is written.
pub fn print_script<K: Sink>(alloc: Global, script: &Script, out: &mut K) -> Result<(), PrintError>
    ensures printed { Prints K.Sink out.old out.new PrintError.Write result (spelling_of script.now) }
    ensures memory { IsErrOf result PrintError.Memory → out.new ≡ out.old }
{
    let text = print(alloc, script)?;
    print_lines(text.as_bytes(), out)?;
    Ok(())
}
