//! Lines that patronictl prints. They change nothing, so they take no room.
ghost use Rattle.std.specs.Prelude.{map, string_bytes, OnOk};
ghost use Rattle.cluster_model.specs.Next.{ctl_line_events};
ghost use Rattle.cluster_model.specs.Parts.{each};
ghost use Rattle.world_model.specs.Emits.{Emits};

use super::Stage;
use event_book::{Bytes, EventKind, Note};
use event_list::EventList;
use std::alloc::AllocError;
use world_fields::writing::write_down;

impl Stage {
    /// Writes down the lines that patronictl prints, in order.
    pub fn print(&self, lines: Vec<String>, events: &mut EventList) -> Result<(), AllocError>
        ensures { OnOk result (Emits self.now self.now events.old events.new (each ctl_line_events self.now (map string_bytes lines.items)) 0) }
    {
        for line in lines {
            let printed = Note::CtlLine {
                line: Bytes::new(line),
            };
            write_down(events, self.clock, EventKind::Note(printed))?;
        }
        Ok(())
    }
}
