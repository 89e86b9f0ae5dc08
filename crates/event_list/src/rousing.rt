//! Which events may give agents something to do.
ghost use Rattle.std.specs.Prelude.{◌≡◌};
ghost use Rattle.event_list.specs.Marks.{rouses_agents};

use event_book::{EventKind, LogEvent, MessageEvent, WatchdogEvent};

/// Whether after such a happening an agent that had nothing to do may have.
#[inline(always)]
pub fn rouses_agents(kind: &EventKind) -> bool
    ensures { result ≡ rouses_agents kind.now }
{
    match kind {
        EventKind::Message(MessageEvent::Sent { .. } | MessageEvent::Lost { .. })
        | EventKind::Store(_)
        | EventKind::Log(LogEvent::Appended { .. } | LogEvent::Received { .. })
        | EventKind::Replication(_)
        | EventKind::Note(_) => false,
        EventKind::Tick
        | EventKind::Message(MessageEvent::Delivered { .. })
        | EventKind::Watchdog(WatchdogEvent::Reset { .. })
        | EventKind::Server(_)
        | EventKind::Log(_)
        | EventKind::Agent(_)
        | EventKind::Link(_) => true,
        EventKind::Watchdog(_) => false,
    }
}
