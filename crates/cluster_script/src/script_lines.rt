//! The bytes of a script, which are cut into lines by whoever walks over them.
use crate::draft::Draft;
use crate::limits::{MOST_BYTES, limit_of_lines};
use script_grammar::{Limit, ScriptFault};
use script_model::Script;
use std::alloc::Global;
use std::marker::Model;

/// The bytes of a script, as lines: for whoever judges the limits and then reads. The lines are kept nowhere, since a list of
/// them would take more room than the bytes.
#[derive(Drop)]
pub struct ScriptLines<'a> {
    bytes: &'a [u8],
}

impl<'a> Model for ScriptLines<'a> {
    ghost use Rattle.std.specs.Prelude.{ℕ, List};

    ghost Value = { List ℕ };

    ghost view = { λ s. s.bytes.now };
}

impl<'a> ScriptLines<'a> {
    ghost use Rattle.std.specs.Prelude.{ℕ, ◌≡◌, IfOk};
    ghost use Rattle.script_grammar.specs.Limits.{limit_of};
    ghost use Rattle.script_grammar.specs.Reading.{Gives, script_of};
    ghost use Rattle.script_model.specs.Script.{IsScript};

    /// The lines of these bytes.
    pub fn of(bytes: &'a [u8]) -> ScriptLines<'a>
        ensures { result ≡ bytes.now }
    {
        ScriptLines { bytes }
    }

    /// The first limit that the bytes pass, in the order of `Limit`, whether or not they are a script. `waited` is how many
    /// ticks of 100 ms come beside those of their lines: the limit of ticks is one of both together.
    pub fn limit_passed(&self, waited: u64) -> Option<Limit>
        ensures { result ≡ limit_of waited self.now }
    {
        if self.bytes.len() > MOST_BYTES {
            return Some(Limit::Bytes);
        }
        limit_of_lines(self.bytes, waited)
    }

    /// The script that the bytes are, or the first line with a fault and its first fault. Lines are counted from 1; what is
    /// missing at the end stands one past the last line. Limits are judged apart, by `limit_passed`. Want of memory says
    /// nothing of the bytes.
    pub fn read(&self, alloc: Global) -> Result<Script, ScriptFault>
        ensures value { Gives (λ script. script) result (script_of self.now) }
        ensures script { IfOk result IsScript }
    {
        let mut draft = Draft::new(alloc);
        let end = draft.add_lines(alloc, self.bytes)?;
        draft.finish(alloc, end)
    }
}
