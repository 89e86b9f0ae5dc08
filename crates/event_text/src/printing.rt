//! The printed line of an event.
ghost use Rattle.std.specs.Prelude.{◌≡◌, ◌++◌, OnOk, codes, string_bytes};
ghost use Rattle.std.specs.Fmt.{decimal};
ghost use Rattle.event_book.specs.Text.{bytes_or_none, line_of, message_line, sent_line, agent_line, link_line};

use crate::named_line::write_named_line;
use crate::note_printing::write_note_line;
use crate::pieces::append;
use crate::server_printing::{
    write_log_line, write_replication_line, write_server_line, write_watchdog_line,
};
use crate::store_printing::write_store_line;
use event_book::{AgentEvent, Event, EventKind, LinkEvent, Message, MessageEvent};
use itoa::Buffer;
use pat_base::Ticks;
use std::alloc::AllocError;

/// Appends the printed line of an event with its line feed, and nothing for the events that have no line; some have one only
/// while messages are traced. It fails only for want of memory.
pub fn write_line(line: &mut String, event: &Event, trace: bool) -> Result<(), AllocError>
    ensures { OnOk result (string_bytes line.new ≡ string_bytes line.old ++ bytes_or_none (line_of trace event.now)) }
{
    match &event.kind {
        EventKind::Tick => Ok(()),
        EventKind::Message(happening) => write_message_line(line, trace, event.tick, happening),
        EventKind::Store(happening) => write_store_line(line, event.tick, happening),
        EventKind::Watchdog(happening) => write_watchdog_line(line, trace, event.tick, happening),
        EventKind::Server(happening) => write_server_line(line, event.tick, happening),
        EventKind::Log(happening) => write_log_line(line, event.tick, happening),
        EventKind::Replication(happening) => write_replication_line(line, event.tick, happening),
        EventKind::Agent(happening) => write_agent_line(line, event.tick, happening),
        EventKind::Link(happening) => write_link_line(line, event.tick, happening),
        EventKind::Note(note) => write_note_line(line, event.tick, note),
    }
}

fn write_message_line(
    line: &mut String,
    trace: bool,
    tick: Ticks,
    event: &MessageEvent,
) -> Result<(), AllocError>
    ensures { OnOk result (string_bytes line.new ≡ string_bytes line.old ++ bytes_or_none (message_line trace tick.0 event.now)) }
{
    if !trace {
        return Ok(());
    }
    match event {
        MessageEvent::Sent { number, message } => {
            write_sent_line(line, tick, *number, message.get())
        }
        MessageEvent::Delivered { number } => {
            write_message_end(line, tick, *number, " is delivered\n")
        }
        MessageEvent::Lost { number } => write_message_end(line, tick, *number, " is lost\n"),
    }
}

/// Appends the line of a message that is sent.
fn write_sent_line(
    line: &mut String,
    tick: Ticks,
    number: u64,
    message: &Message,
) -> Result<(), AllocError>
    ensures { OnOk result (string_bytes line.new ≡ string_bytes line.old ++ sent_line tick.0 number message.now) }
{
    let (mut moment, mut digits) = (Buffer::new(), Buffer::new());
    let pieces = [
        moment.format(tick.0),
        " message ",
        digits.format(number),
        " from ",
        message.from.as_str(),
        " to ",
        message.to.as_str(),
        ": ",
    ];
    append(line, &pieces)?;
    let body = &message.body;
    write!(line, "{body}\n")
}

/// Appends a moment, a message's number, and the words behind it.
fn write_message_end(
    line: &mut String,
    tick: Ticks,
    number: u64,
    words: &str,
) -> Result<(), AllocError>
    ensures { OnOk result (string_bytes line.new ≡ string_bytes line.old ++ (decimal tick.0 ++ (codes " message " ++ (decimal number ++ words.now)))) }
{
    let (mut moment, mut digits) = (Buffer::new(), Buffer::new());
    append(
        line,
        &[moment.format(tick.0), " message ", digits.format(number)],
    )?;
    line.push_str(words)
}

fn write_agent_line(line: &mut String, tick: Ticks, event: &AgentEvent) -> Result<(), AllocError>
    ensures { OnOk result (string_bytes line.new ≡ string_bytes line.old ++ bytes_or_none (agent_line tick.0 event.now)) }
{
    match event {
        AgentEvent::Suspended { agent } => {
            write_named_line(line, tick, agent.name, " is held\n")
        }
        AgentEvent::Resumed { agent } => { write_named_line(line, tick, agent.name, " resumes\n") }
        AgentEvent::Killed { agent } => { write_named_line(line, tick, agent.name, " is killed\n") }
        AgentEvent::Started { agent, .. } => {
            write_named_line(line, tick, agent.name, " is started\n")
        }
        _ => Ok(()),
    }
}

fn write_link_line(line: &mut String, tick: Ticks, event: &LinkEvent) -> Result<(), AllocError>
    ensures { OnOk result (string_bytes line.new ≡ string_bytes line.old ++ bytes_or_none (link_line tick.0 event.now)) }
{
    match event {
        LinkEvent::Cut(link) => {
            let (first, second) = (link.first, link.second);
            write!(line, "{tick} {first} and {second} are cut\n")
        }
        LinkEvent::Joined(link) => {
            let (first, second) = (link.first, link.second);
            write!(line, "{tick} {first} and {second} are joined\n")
        }
    }
}
