//! Events that are written down.
ghost use Rattle.std.specs.Prelude.{◌≡◌, ◌∷◌, [], OnOk};
ghost use Rattle.event_book.specs.declared.event.Event.{Event};
ghost use Rattle.event_list.specs.Listed.{◌+++◌};

use event_book::{Event, EventKind};
use event_list::EventList;
use pat_base::Ticks;
use std::alloc::AllocError;

/// Writes an event down.
#[inline(always)]
pub fn write_down(events: &mut EventList, tick: Ticks, kind: EventKind) -> Result<(), AllocError>
    ensures { OnOk result (events.new ≡ events.old +++ record { tick = tick; kind = kind } ∷ []) }
{
    events.push(Event { tick, kind })?;
    Ok(())
}
