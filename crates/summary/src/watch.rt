//! The summary that notes events.
ghost use Rattle.std.specs.Prelude.{◌≡◌, ◌+◌, ◌^◌, ◌<◌, ◌≤◌, length};
ghost use Rattle.summary_model.specs.Heads.{watch_of};
ghost use Rattle.summary_model.specs.Noting.{noted};
ghost use Rattle.summary_model.specs.Passing.{watch_later};

use crate::head::{declared_mode, first_unwatched, head_breach, margins_of};
use crate::noting::{
    broken_by, count_after, first_if, premises_after, synchronous_after, ticks_after,
};
use crate::writers::{note_writers, two_after};
use event_book::Event;
use pat_base::{MOST_MEMBERS, Ticks};
use std::marker::Model;
use store_keys::Config;
use summary_model::{Closing, FirstMoment, SERVERS, Seen, WatchOf};

/// The summary of the events noted so far. It is of fixed size, and keeps none of them.
#[derive(Drop)]
pub struct Watch {
    margins: [Option<Ticks>; MOST_MEMBERS],
    closing: Closing,
}

impl Model for Watch {
    ghost use Rattle.summary_model.specs.Noting.{WatchFacts};

    ghost Value = { WatchFacts };

    ghost view = { λ watch. record { margins = watch.margins; closing = watch.closing } };
}

impl Watch {
    /// The summary before the first event, over the declared members in the order of the script and the first
    /// configuration. This takes no memory.
    pub fn new(members: &[WatchOf], first: &Config) -> Watch
        requires { length members.now ≤ MOST_MEMBERS }
        ensures { result ≡ watch_of members.now first.now }
    {
        let breach = head_breach(first_unwatched(members), first.pause);
        let closing = Closing {
            end: Ticks(0),
            premises: broken_by(breach, Ticks(0)),
            synchronous: declared_mode(first.synchronous_mode),
            two_writers: FirstMoment::Never,
            writers: [None; SERVERS],
            acknowledged: 0,
            lost: FirstMoment::Never,
        };
        Watch {
            margins: margins_of(members),
            closing,
        }
    }

    /// Notes an event, with what is seen beside it. This takes no memory, and the same time for each event.
    pub fn note(&mut self, event: &Event, seen: Seen)
        requires clock { self.old.closing.end.0 + 1 < 2 ^ 64 }
        requires count { self.old.closing.acknowledged + 1 < 2 ^ 64 }
        ensures { self.new ≡ noted self.old event.now.kind seen }
    {
        let kind = &event.kind;
        let now = ticks_after(self.closing.end, kind);
        note_writers(&mut self.closing.writers, kind);
        let two_writers = two_after(self.closing.two_writers, now, &self.closing.writers, kind);
        let premises = premises_after(
            self.closing.premises,
            now,
            &self.margins,
            seen.lateness,
            kind,
        );
        self.closing.end = now;
        self.closing.premises = premises;
        self.closing.synchronous = synchronous_after(self.closing.synchronous, now, kind);
        self.closing.two_writers = two_writers;
        self.closing.acknowledged = count_after(self.closing.acknowledged, kind);
        self.closing.lost = first_if(self.closing.lost, seen.lacking, now);
    }

    /// So many ticks pass that bring nothing else.
    pub fn pass(&mut self, ticks: u64)
        requires { self.old.closing.end.0 + ticks < 2 ^ 64 }
        ensures { self.new ≡ watch_later self.old ticks }
    {
        self.closing.end = Ticks(self.closing.end.0 + ticks);
    }

    /// How the run closes if it ends here. This takes no memory.
    pub fn closing(&self) -> Closing
        ensures { result ≡ self.now.closing }
    {
        self.closing
    }
}
