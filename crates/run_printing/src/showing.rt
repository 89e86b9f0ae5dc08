//! What steps brought, noted for the closing summary and printed.
ghost use Rattle.std.specs.Prelude.{◌≡◌, All, IsTrue, List, length, map, OnOk};
ghost use Rattle.event_book.specs.declared.event.Event.{Event};
ghost use Rattle.summary_model.specs.Passing.{IsTickAlone};
ghost use Rattle.summary_model.specs.Sights.{noted_step, noted_steps};
ghost use Rattle.run_printing.specs.Showing.{Shows};

use crate::print_error::PrintError;
use crate::printing::{print_lines, set_text};
use event_list::EventList;
use pat_outside::Sink;
use std::alloc::AllocError;
use summary::Summary;

/// The most that a summary counts, of ticks and of commits.
const MOST_COUNTED: u64 = 1 << 60;

/// Notes and prints what steps brought, one after another: lists in which messages are traced, whether or not their lines are to be printed.
/// No step among them changes the latter. The text is a buffer.
pub fn show<K: Sink>(
    summary: &mut Summary,
    text: &mut String,
    trace: bool,
    brought: &[EventList],
    out: &mut K,
) -> Result<(), PrintError>
    requires { All (λ events. IsTrue events.traced) brought.now }
    ensures { Shows K.Sink summary.old summary.new trace out.old out.new result (map (λ v. v.items) brought.now) }
{
    for events in brought {
        note(summary, events)?;
        set_text(text, events, trace)?;
        print_lines(text.as_bytes(), out)?;
    }
    Ok(())
}

/// Notes the events of one step. What the summary counts never gets near its most in a run that memory can hold, so that is told
/// as want of memory.
pub fn note(summary: &mut Summary, events: &EventList) -> Result<(), AllocError>
    ensures { OnOk result (summary.new ≡ noted_step summary.old events.now.items) }
{
    let closing = summary.closing();
    if closing.end.0 > MOST_COUNTED || closing.acknowledged > MOST_COUNTED {
        return Err(AllocError);
    }
    summary.note_all(events.kept());
    Ok(())
}

/// Notes so many ticks that bring nothing else, under the same limit.
pub fn note_ticks(summary: &mut Summary, ticks: u64) -> Result<(), AllocError>
    ensures { OnOk result ((steps : List (List Event)) → length steps ≡ ticks → All IsTickAlone steps → summary.new ≡ noted_steps summary.old steps) }
{
    if summary.closing().end.0 > MOST_COUNTED || ticks > MOST_COUNTED {
        return Err(AllocError);
    }
    summary.note_ticks(ticks);
    Ok(())
}
