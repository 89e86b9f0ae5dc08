//! What the events alone tell of what is seen beside each.
ghost use Rattle.std.specs.Prelude.{◌≡◌};
ghost use Rattle.summary_model.specs.Passing.{tells_nothing};
ghost use Rattle.summary_model.specs.Sights.{since_by_watchdog, since_after, lateness_by_watchdog, lateness_at, is_loss, tells_loss, seen_beside};

use event_book::{AgentEvent, Event, EventKind, ReplicationEvent, WatchdogEvent};
use pat_base::Ticks;
use summary_model::Seen;

fn since_by_watchdog(before: Ticks, event: &WatchdogEvent) -> Ticks
    ensures { result ≡ since_by_watchdog before event.now }
{
    match event {
        WatchdogEvent::Measured { since, .. } => *since,
        _ => before,
    }
}

/// The moment from which the next feed of a watchdog is measured, after an event: the one that was told last.
pub fn since_after(before: Ticks, kind: &EventKind) -> Ticks
    ensures { result ≡ since_after before kind.now }
{
    match kind {
        EventKind::Watchdog(happening) => since_by_watchdog(before, happening),
        _ => before,
    }
}

fn lateness_by_watchdog(now: Ticks, since: Ticks, event: &WatchdogEvent) -> u64
    ensures { result ≡ lateness_by_watchdog now since event.now }
{
    match event {
        WatchdogEvent::Armed { .. } => now.0.saturating_sub(since.0),
        WatchdogEvent::Fed { .. } => now.0.saturating_sub(since.0),
        _ => 0,
    }
}

/// How many ticks after that moment an event arms or feeds a watchdog now; 0 for other events.
fn lateness_at(now: Ticks, since: Ticks, kind: &EventKind) -> u64
    ensures { result ≡ lateness_at now since kind.now }
{
    match kind {
        EventKind::Watchdog(happening) => lateness_by_watchdog(now, since, happening),
        _ => 0,
    }
}

/// Whether an event tells that a server that accepts writes lacks an acknowledged commit.
fn is_loss(kind: &EventKind) -> bool
    ensures { result ≡ is_loss kind.now }
{
    match kind {
        EventKind::Replication(ReplicationEvent::Lacks { .. }) => true,
        _ => false,
    }
}

/// Whether an event changes nothing that the summary keeps, unless a loss is told behind it.
pub fn tells_nothing(kind: &EventKind) -> bool
    ensures { result ≡ tells_nothing kind.now }
{
    match kind {
        EventKind::Message(_)
        | EventKind::Log(_)
        | EventKind::Replication(ReplicationEvent::Confirmed { .. })
        | EventKind::Note(_)
        | EventKind::Link(_)
        | EventKind::Agent(AgentEvent::Woken { .. }) => true,
        _ => false,
    }
}

/// Whether the first of these events tells it.
pub fn tells_loss(events: &[Event]) -> bool
    ensures { result ≡ tells_loss events.now }
{
    match events.first() {
        None => false,
        Some(event) => is_loss(&event.kind),
    }
}

/// What is seen beside an event of this moment, behind which these stand. `since` is the moment that feeds are measured from.
pub fn seen_beside(now: Ticks, since: Ticks, kind: &EventKind, behind: &[Event]) -> Seen
    ensures { result ≡ seen_beside now since kind.now behind.now }
{
    Seen {
        lacking: tells_loss(behind),
        lateness: lateness_at(now, since, kind),
    }
}
