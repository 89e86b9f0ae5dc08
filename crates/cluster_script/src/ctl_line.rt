//! The line of patronictl.
ghost use Rattle.std.specs.Prelude.{◌≡◌, IfOk};
ghost use Rattle.std.specs.Option.{option_copied};
ghost use Rattle.indexmap.specs.IndexMap.{keys};
ghost use Rattle.script_grammar.specs.Arguments.{ctl_line};

use crate::arguments::{line_end, missing_word};
use crate::members::Members;
use script_model::{Command, Line, LineBytes};
use script_words::Fault;
use std::alloc::{AllocError, Global};

/// The line of patronictl: its words are all that stands behind the blank. What they say is judged when it is played. It fails only
/// for want of memory.
pub fn ctl_line(
    alloc: Global,
    members: &Members,
    rest: Option<&[u8]>,
) -> Result<Result<Line, Fault>, AllocError>
    ensures { IfOk result (λ outcome. outcome ≡ ctl_line (keys members.now) (option_copied rest.entry)) }
{
    let Some(said) = rest else {
        return Ok(Err(missing_word(members)));
    };
    match line_end(members, None) {
        Err(fault) => Ok(Err(fault)),
        Ok(()) => {
            let said = LineBytes::new(alloc, said)?;
            Ok(Ok(Line::Command(Command::Ctl(said))))
        }
    }
}
