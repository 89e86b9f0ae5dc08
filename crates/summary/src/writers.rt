//! Which servers accept writes.
ghost use Rattle.std.specs.Prelude.{◌≡◌, length};
ghost use Rattle.summary_model.specs.Noting.{writers_by_server, writers_by_watchdog, writers_after, has_two, two_by_server, two_after};

use crate::noting::first_if;
use event_book::{EventKind, ServerEvent, WatchdogEvent};
use pat_base::{Name, Ticks};
use summary_model::{FirstMoment, SERVERS};

/// The names of the servers that accept writes, by their numbers, after an event.
pub fn note_writers(writers: &mut [Option<Name>; SERVERS], kind: &EventKind)
    ensures { writers.new ≡ writers_after writers.old kind.now }
{
    match kind {
        EventKind::Server(happening) => note_server(writers, happening),
        EventKind::Watchdog(happening) => note_watchdog(writers, happening),
        _ => {}
    }
}

fn note_server(writers: &mut [Option<Name>; SERVERS], event: &ServerEvent)
    ensures { writers.new ≡ writers_by_server writers.old event.now }
{
    match event {
        ServerEvent::Began { server, .. } => {
            writers[usize::from(server.id.number)] = Some(server.name);
        }
        ServerEvent::Ended { server } => writers[usize::from(server.id.number)] = None,
        ServerEvent::Crashed { server } => writers[usize::from(server.id.number)] = None,
        _ => {}
    }
}

fn note_watchdog(writers: &mut [Option<Name>; SERVERS], event: &WatchdogEvent)
    ensures { writers.new ≡ writers_by_watchdog writers.old event.now }
{
    if let WatchdogEvent::Reset { member } = event {
        writers[usize::from(member.id.number)] = None;
    }
}

/// Whether two servers accept writes.
fn has_two(writers: &[Option<Name>]) -> bool
    ensures { result ≡ has_two writers.now }
{
    writers.iter().filter(|writer| writer.is_some()).count() > 1
}

/// When two servers accepted writes first, after an event of this moment, after which these accept writes. Only where a
/// server begins are they counted.
pub fn two_after(
    first: FirstMoment,
    now: Ticks,
    writers: &[Option<Name>],
    kind: &EventKind,
) -> FirstMoment
    ensures { result ≡ two_after first now writers.now kind.now }
{
    match kind {
        EventKind::Server(ServerEvent::Began { .. }) => first_if(first, has_two(writers), now),
        _ => first,
    }
}
