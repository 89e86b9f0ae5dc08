//! The reader of scripts.
ghost use Rattle.std.specs.Prelude.{IfOk};
ghost use Rattle.script_model.specs.Script.{IsScript};
ghost use Rattle.script_grammar.specs.Reading.{Gives, script_of};

use crate::ScriptLines;
use script_grammar::ScriptFault;
use script_model::Script;
use std::alloc::Global;

/// The script that the bytes are, or the first line with a fault and its first fault. Lines are counted from 1; what is
/// missing at the end stands one past the last line. Limits are judged apart, by `limit_passed`. Want of memory says
/// nothing of the bytes.
pub fn read(alloc: Global, bytes: &[u8]) -> Result<Script, ScriptFault>
    ensures value { Gives (λ script. script) result (script_of bytes.now) }
    ensures script { IfOk result IsScript }
{
    ScriptLines::of(bytes).read(alloc)
}
