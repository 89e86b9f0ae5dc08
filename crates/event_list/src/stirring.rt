//! Which events may give replicas something to receive or to confirm.
ghost use Rattle.std.specs.Prelude.{◌≡◌};
ghost use Rattle.event_list.specs.Marks.{stirs_replicas};

use event_book::{EventKind, WatchdogEvent};

/// Whether what happened changes servers or links.
#[inline(always)]
pub fn stirs_replicas(kind: &EventKind) -> bool
    ensures { result ≡ stirs_replicas kind.now }
{
    match kind {
        EventKind::Tick
        | EventKind::Watchdog(WatchdogEvent::Reset { .. })
        | EventKind::Server(_)
        | EventKind::Log(_)
        | EventKind::Replication(_)
        | EventKind::Link(_) => true,
        EventKind::Watchdog(_)
        | EventKind::Message(_)
        | EventKind::Store(_)
        | EventKind::Agent(_)
        | EventKind::Note(_) => false,
    }
}
