//! Scripts as text.
ghost use Rattle.std.specs.Prelude.{◌≡◌, ◌++◌, OnOk, IfOk, string_bytes};
ghost use Rattle.script_words.specs.Lines.{ended};
ghost use Rattle.script_model.specs.Script.{names_of, line_text, body_lines, spelling_of};
ghost use Rattle.script_printing.specs.Places.{line_at};

use crate::command_printing::write_line;
use crate::head_printing::write_head;
use script_model::Script;
use std::alloc::{AllocError, Global};

/// The canonical text of a script: its lines and nothing else, each with one blank between its words. There are no empty lines
/// and no comments, the configuration and the base stand before the members, and the options of a member in their order; what is
/// the default is left out. It fails only for want of memory.
pub fn print(alloc: Global, script: &Script) -> Result<String, AllocError>
    ensures { IfOk result (λ text. string_bytes text ≡ spelling_of script.now) }
{
    let mut text = String::new(alloc);
    write_head(&mut text, script.head())?;
    write_body(&mut text, script)?;
    Ok(text)
}

fn write_body(text: &mut String, script: &Script) -> Result<(), AllocError>
    ensures { OnOk result (string_bytes text.new ≡ string_bytes text.old ++ ended (body_lines (names_of script.now.head) script.now.body)) }
{
    for place in 0..script.len() {
        write_line_at(text, script, place)?;
    }
    Ok(())
}

/// Appends the line of the body at a place, if there is one.
fn write_line_at(text: &mut String, script: &Script, place: usize) -> Result<(), AllocError>
    ensures { OnOk result (string_bytes text.new ≡ string_bytes text.old ++ ended (line_at (line_text (names_of script.now.head)) script.now.body place)) }
{
    let Some(line) = script.get(place) else {
        return Ok(());
    };
    write_line(text, script.head(), line)?;
    text.push_str("\n")
}
