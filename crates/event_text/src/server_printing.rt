//! The printed lines of what happens to watchdogs, servers, their logs and their synchronous replication.
ghost use Rattle.std.specs.Prelude.{◌≡◌, ◌++◌, OnOk, string_bytes};
ghost use Rattle.pat_base.specs.Name.{name_bytes};
ghost use Rattle.event_book.specs.ServerText.{watchdog_line, fed_line, feeding_line, server_line, own_server_line, commit_line, log_line, replication_line, required_line};
ghost use Rattle.event_book.specs.Text.{bytes_or_none};

use crate::listing::end_by_list;
use crate::named_line::write_named_line;
use crate::pieces::append;
use event_book::{LogEvent, Names, ReplicationEvent, ServerEvent, WatchdogEvent};
use itoa::Buffer;
use pat_base::{Name, Required, Ticks};
use std::alloc::AllocError;
use wal_model::Entry;

/// Appends the line of what happens to a watchdog, if it has one. It fails only for want of memory.
pub fn write_watchdog_line(
    line: &mut String,
    trace: bool,
    tick: Ticks,
    event: &WatchdogEvent,
) -> Result<(), AllocError>
    ensures { OnOk result (string_bytes line.new ≡ string_bytes line.old ++ bytes_or_none (watchdog_line trace tick.0 event.now)) }
{
    match event {
        WatchdogEvent::Armed { member, until, .. } => {
            let (name, until) = (member.name, *until);
            write!(line, "{tick} {name} arms its watchdog until {until}\n")
        }
        WatchdogEvent::Fed { member, until, .. } => {
            write_fed_line(line, trace, tick, member.name, *until)
        }
        WatchdogEvent::Reset { member } => {
            write_named_line(line, tick, member.name, " is reset by its watchdog\n")
        }
        WatchdogEvent::Disarmed { .. }
        | WatchdogEvent::Measured { .. }
        | WatchdogEvent::HoldTaken { .. } => Ok(()),
    }
}

fn write_fed_line(
    line: &mut String,
    trace: bool,
    tick: Ticks,
    name: Name,
    until: Ticks,
) -> Result<(), AllocError>
    ensures { OnOk result (string_bytes line.new ≡ string_bytes line.old ++ bytes_or_none (fed_line trace tick.0 (name_bytes name) until.0)) }
{
    if !trace {
        return Ok(());
    }
    write_feeding_line(line, tick, name, until)
}

/// Appends the line of a watchdog that is fed.
fn write_feeding_line(
    line: &mut String,
    tick: Ticks,
    name: Name,
    until: Ticks,
) -> Result<(), AllocError>
    ensures { OnOk result (string_bytes line.new ≡ string_bytes line.old ++ feeding_line tick.0 (name_bytes name) until.0) }
{
    let (mut moment, mut end) = (Buffer::new(), Buffer::new());
    let pieces = [
        moment.format(tick.0),
        " ",
        name.as_str(),
        " feeds its watchdog until ",
        end.format(until.0),
        "\n",
    ];
    append(line, &pieces)
}

/// Appends the line of what happens to a server, if it has one. It fails only for want of memory.
pub fn write_server_line(
    line: &mut String,
    tick: Ticks,
    event: &ServerEvent,
) -> Result<(), AllocError>
    ensures { OnOk result (string_bytes line.new ≡ string_bytes line.old ++ bytes_or_none (server_line tick.0 event.now)) }
{
    match event {
        ServerEvent::Began { server, timeline } => {
            let name = server.name;
            write!(
                line,
                "{tick} {name} accepts writes on timeline {timeline}\n"
            )
        }
        ServerEvent::Follows { server, upstream } => {
            let (name, leader) = (server.name, upstream.name);
            write!(line, "{tick} {name} follows {leader}\n")
        }
        ServerEvent::Diverged {
            server,
            upstream,
            at,
        } => {
            let (name, leader, place) = (server.name, upstream.name, *at);
            write!(line, "{tick} {name} diverges from {leader} at {place}\n")
        }
        other => write_own_server_line(line, tick, other),
    }
}

/// Appends the line of what happens to a server by itself.
fn write_own_server_line(
    line: &mut String,
    tick: Ticks,
    event: &ServerEvent,
) -> Result<(), AllocError>
    ensures { OnOk result (string_bytes line.new ≡ string_bytes line.old ++ bytes_or_none (own_server_line tick.0 event.now)) }
{
    match event {
        ServerEvent::Ended { server } => {
            write_named_line(line, tick, server.name, " no longer accepts writes\n")
        }
        ServerEvent::Crashed { server } => {
            write_named_line(line, tick, server.name, " crashed\n")
        }
        ServerEvent::Promoted { server } => {
            write_named_line(line, tick, server.name, " is promoted by its operator\n")
        }
        ServerEvent::StartsAsReplica { server } => {
            write_named_line(line, tick, server.name, " starts as a replica\n")
        }
        ServerEvent::Frozen { server } => {
            write_named_line(line, tick, server.name, " is frozen\n")
        }
        ServerEvent::Thawed { server } => {
            write_named_line(line, tick, server.name, " is thawed\n")
        }
        _ => Ok(()),
    }
}

/// Appends the line of what happens to a log, if it has one. It fails only for want of memory.
pub fn write_log_line(line: &mut String, tick: Ticks, event: &LogEvent) -> Result<(), AllocError>
    ensures { OnOk result (string_bytes line.new ≡ string_bytes line.old ++ bytes_or_none (log_line tick.0 event.now)) }
{
    match event {
        LogEvent::Appended { server, entry } => {
            write_commit_line(line, tick, entry, server.name)
        }
        LogEvent::Received { .. } => Ok(()),
        LogEvent::Rewound { server, at, .. } => {
            let (name, place) = (server.name, *at);
            write!(line, "{tick} {name} is rewound to {place}\n")
        }
        LogEvent::Copied { server, from } => {
            let (name, source) = (server.name, from.name);
            write!(line, "{tick} {name} is cloned from {source}\n")
        }
        LogEvent::Wiped { server } => { write_named_line(line, tick, server.name, " is wiped\n") }
    }
}

/// Appends the line of a commit.
fn write_commit_line(
    line: &mut String,
    tick: Ticks,
    entry: &Entry,
    name: Name,
) -> Result<(), AllocError>
    ensures { OnOk result (string_bytes line.new ≡ string_bytes line.old ++ commit_line tick.0 entry.now (name_bytes name)) }
{
    let (mut moment, mut serial, mut bytes) = (Buffer::new(), Buffer::new(), Buffer::new());
    let pieces = [
        moment.format(tick.0),
        " commit ",
        serial.format(entry.serial),
        " of ",
        bytes.format(entry.bytes),
        " bytes on ",
        name.as_str(),
        "\n",
    ];
    append(line, &pieces)
}

/// Appends the line of what happens in synchronous replication, if it has one. It fails only for want of memory.
pub fn write_replication_line(
    line: &mut String,
    tick: Ticks,
    event: &ReplicationEvent,
) -> Result<(), AllocError>
    ensures { OnOk result (string_bytes line.new ≡ string_bytes line.old ++ bytes_or_none (replication_line tick.0 event.now)) }
{
    match event {
        ReplicationEvent::RequiredSet {
            server,
            required,
            names,
        } => write_required_line(line, tick, server.name, *required, names),
        ReplicationEvent::Confirmed { .. } | ReplicationEvent::Lacks { .. } => Ok(()),
        ReplicationEvent::Acknowledged { commit, .. } => {
            let (mut moment, mut serial) = (Buffer::new(), Buffer::new());
            let pieces = [
                moment.format(tick.0),
                " commit ",
                serial.format(*commit),
                " is acknowledged\n",
            ];
            append(line, &pieces)
        }
    }
}

fn write_required_line(
    line: &mut String,
    tick: Ticks,
    name: Name,
    required: Required,
    names: &Names,
) -> Result<(), AllocError>
    ensures { OnOk result (string_bytes line.new ≡ string_bytes line.old ++ bytes_or_none (required_line tick.0 (name_bytes name) required names.now)) }
{
    match required {
        Required::Nobody => write_named_line(line, tick, name, " requires no standby\n"),
        Required::AnyOne => write_named_line(line, tick, name, " requires any standby\n"),
        Required::All(_) => {
            write!(line, "{tick} {name} requires ")?;
            end_by_list(line, "no standby", names.as_slice())
        }
        Required::AtLeast { number, .. } => {
            write!(line, "{tick} {name} requires {number} of ")?;
            end_by_list(line, "no standby", names.as_slice())
        }
    }
}
