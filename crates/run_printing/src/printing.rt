//! Events and the closing summary as lines on a sink.
ghost use Rattle.std.specs.Prelude.{◌≡◌, ◌≤◌, ◌<◌, length, string_bytes, IsErrOf, IsTrue, OnOk};
ghost use Rattle.pat_outside.specs.Outside.{Grew};
ghost use Rattle.pat_outside.specs.Prints.{Prints, failed};
ghost use Rattle.event_book.specs.Text.{lines_of};
ghost use Rattle.summary_model.specs.SummaryText.{closing_text};
ghost use Rattle.run_printing.specs.LineParts.{line_length};

use crate::print_error::PrintError;
use event_book::Event;
use event_list::EventList;
use event_text::write_line;
use memchr::memchr;
use pat_outside::{Failed, Sink, write_all};
use std::alloc::{AllocError, Global};
use summary::closing_text;
use summary_model::Closing;

/// Sets a buffer to the lines of the events of a step. Those of messages are there only while messages are traced; they must be traced in the
/// list then.
pub fn set_text(text: &mut String, events: &EventList, trace: bool) -> Result<(), AllocError>
    requires { IsTrue trace → IsTrue events.now.traced }
    ensures { OnOk result (string_bytes text.new ≡ lines_of trace events.now.items) }
{
    set_lines(text, events.kept(), trace)
}

/// Sets a buffer to the lines of events. Those of messages are there only while messages are traced.
fn set_lines(text: &mut String, events: &[Event], trace: bool) -> Result<(), AllocError>
    ensures { OnOk result (string_bytes text.new ≡ lines_of trace events.now) }
{
    text.clear();
    for event in events {
        write_line(text, event, trace)?;
    }
    Ok(())
}

/// Writes the closing summary, each of its lines in one piece. Where memory is wanting for its text, nothing is written.
pub fn print_closing<K: Sink>(
    alloc: Global,
    closing: &Closing,
    out: &mut K,
) -> Result<(), PrintError>
    ensures printed { Prints K.Sink out.old out.new PrintError.Write result (closing_text closing.now) }
    ensures memory { IsErrOf result PrintError.Memory → out.new ≡ out.old }
{
    let text = closing_text(alloc, closing)?;
    print_lines(text.as_bytes(), out)?;
    Ok(())
}

/// Writes a text, each of its lines in one piece.
pub fn print_lines<K: Sink>(text: &[u8], out: &mut K) -> Result<(), Failed>
    ensures { Prints K.Sink out.old out.new failed result text.now }
{
    let mut rest = text;
    while !rest.is_empty() {
        let (line, behind) = rest.split_at(line_length(rest));
        write_all(out, line)?;
        rest = behind;
    }
    Ok(())
}

/// How many bytes the first line of a text has, with its line feed; all, where there is none.
fn line_length(text: &[u8]) -> usize
    ensures value { result ≡ line_length text.now }
    ensures within { result ≤ length text.now }
    ensures some { 0 < length text.now → 0 < result }
{
    match memchr(b'\n', text) {
        None => text.len(),
        Some(place) => place + 1,
    }
}
