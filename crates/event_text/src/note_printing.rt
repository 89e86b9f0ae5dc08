//! The printed lines of notes.
ghost use Rattle.std.specs.Prelude.{◌≡◌, ◌++◌, OnOk, string_bytes};
ghost use Rattle.pat_base.specs.Name.{name_bytes};
ghost use Rattle.event_book.specs.NoteText.{note_line, reply_line, answered_line, ctl_line};
ghost use Rattle.event_book.specs.Text.{bytes_or_none};

use crate::named_line::write_named_line;
use event_book::{AgentNoteText, Bytes, Note};
use pat_base::{Name, Ticks};
use std::alloc::AllocError;

/// Appends the line of a note. It fails only for want of memory.
pub fn write_note_line(line: &mut String, tick: Ticks, note: &Note) -> Result<(), AllocError>
    ensures { OnOk result (string_bytes line.new ≡ string_bytes line.old ++ bytes_or_none (note_line tick.0 note.now)) }
{
    match note {
        Note::EndsServer { member, reason } => {
            let name = member.name;
            write!(line, "{tick} {name} ends its server: {reason}\n")
        }
        Note::OfAgent {
            member,
            note,
            about,
        } => {
            let name = member.name;
            let text = AgentNoteText {
                note: *note,
                about: *about,
            };
            write!(line, "{tick} {name} {text}\n")
        }
        Note::StaysByFailsafe { member } => {
            write_named_line(line, tick, member.name, " stays primary by failsafe\n")
        }
        other => write_reply_line(line, tick, other),
    }
}

/// Appends the line of what a line of a script is answered.
fn write_reply_line(line: &mut String, tick: Ticks, note: &Note) -> Result<(), AllocError>
    ensures { OnOk result (string_bytes line.new ≡ string_bytes line.old ++ bytes_or_none (reply_line tick.0 note.now)) }
{
    match note {
        Note::RefusesCommit { server } => {
            write_named_line(line, tick, server.name, " refuses a commit\n")
        }
        Note::AlreadyRunning { agent } => {
            write_named_line(line, tick, agent.name, " is already running\n")
        }
        Note::NoMessage { number } => write!(line, "{tick} no message {number}\n"),
        Note::Undeliverable { number } => write!(
            line,
            "{tick} message {number} cannot be delivered\n"
        ),
        Note::Answered {
            agent,
            status,
            body,
            ..
        } => write_answered_line(line, tick, agent.name, *status, body),
        Note::NoAnswer { agent } => {
            write_named_line(line, tick, agent.name, " gives no answer\n")
        }
        Note::ConnectionFailed => write!(line, "{tick} connection failed\n"),
        Note::CtlLine { line: text } => write_ctl_line(line, text),
        _ => Ok(()),
    }
}

fn write_answered_line(
    line: &mut String,
    tick: Ticks,
    name: Name,
    status: u16,
    body: &Bytes,
) -> Result<(), AllocError>
    ensures { OnOk result (string_bytes line.new ≡ string_bytes line.old ++ bytes_or_none (answered_line tick.0 (name_bytes name) status body.now)) }
{
    let body = body.as_str();
    if body.is_empty() {
        return write!(line, "{tick} {name} answers {status}\n");
    }
    write!(line, "{tick} {name} answers {status} {body}\n")
}

/// Appends a line that patronictl prints, which stands without its moment.
fn write_ctl_line(line: &mut String, text: &Bytes) -> Result<(), AllocError>
    ensures { OnOk result (string_bytes line.new ≡ string_bytes line.old ++ bytes_or_none (ctl_line text.now)) }
{
    let text = text.as_str();
    write!(line, "{text}\n")
}
