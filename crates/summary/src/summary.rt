//! The summary of a run, from its events alone.
ghost use Rattle.std.specs.Prelude.{◌≡◌, ◌+◌, ◌^◌, ◌<◌, ◌≤◌, All, List, length};
ghost use Rattle.pat_base.specs.declared.member_id.TheConstants.{MOST_MEMBERS};
ghost use Rattle.event_book.specs.declared.event.Event.{Event};
ghost use Rattle.summary_model.specs.Passing.{IsTickAlone, summary_later};
ghost use Rattle.summary_model.specs.Sights.{summary_of, noted_before, noted_step, noted_steps};

use crate::Watch;
use crate::noting::ticks_after;
use crate::sighting::{seen_beside, since_after, tells_loss, tells_nothing};
use event_book::Event;
use pat_base::Ticks;
use std::marker::Model;
use store_keys::Config;
use summary_model::{Closing, WatchOf};

/// The summary of the steps noted so far. It is of fixed size, and keeps no event. What is seen beside an event it reads from the
/// silent events: the one before each feed, which tells from when that is measured, and the one behind a loss.
#[derive(Drop)]
pub struct Summary {
    watch: Watch,
    since: Ticks,
}

impl Model for Summary {
    ghost use Rattle.summary_model.specs.Sights.{SummaryFacts};

    ghost Value = { SummaryFacts };

    ghost view = { λ summary. record { watch = summary.watch; since = summary.since } };
}

impl Summary {
    /// The summary before the first event, over the declared members in the order of the script and the first
    /// configuration. This takes no memory.
    pub fn new(members: &[WatchOf], first: &Config) -> Summary
        requires { length members.now ≤ MOST_MEMBERS }
        ensures { result ≡ summary_of members.now first.now }
    {
        Summary {
            watch: Watch::new(members, first),
            since: Ticks(0),
        }
    }

    /// Notes the events of one step, in their order. The event that tells a loss is looked for in the same step as its cause.
    /// This takes no memory, and the same time for each event.
    pub fn note_all(&mut self, events: &[Event])
        requires clock { self.old.watch.closing.end.0 + length events.now < 2 ^ 64 }
        requires count { self.old.watch.closing.acknowledged + length events.now < 2 ^ 64 }
        ensures noted { self.new ≡ noted_step self.old events.now }

        // The counters grow by at most the number of the events.
        ensures clock { self.new.watch.closing.end.0 ≤ self.old.watch.closing.end.0 + length events.now }
        ensures count { self.new.watch.closing.acknowledged ≤ self.old.watch.closing.acknowledged + length events.now }
    {
        let mut rest = events;
        while let Some((event, behind)) = rest.split_first() {
            self.note_before(event, behind);
            rest = behind;
        }
    }

    /// Notes so many ticks at once, each of which is all that its step brings. This takes no memory, and the same time however many
    /// they are.
    pub fn note_ticks(&mut self, ticks: u64)
        requires { self.old.watch.closing.end.0 + ticks < 2 ^ 64 }
        ensures noted { (steps : List (List Event)) → length steps ≡ ticks → All IsTickAlone steps → self.new ≡ noted_steps self.old steps }
        ensures clock { self.new.watch.closing.end.0 ≡ self.old.watch.closing.end.0 + ticks }
        ensures count { self.new.watch.closing.acknowledged ≡ self.old.watch.closing.acknowledged }
    {
        self.pass(ticks);
    }

    /// So many ticks pass that bring nothing else.
    fn pass(&mut self, ticks: u64)
        requires { self.old.watch.closing.end.0 + ticks < 2 ^ 64 }
        ensures { self.new ≡ summary_later self.old ticks }
    {
        self.watch.pass(ticks);
    }

    /// Notes an event, behind which these stand in its step.
    fn note_before(&mut self, event: &Event, behind: &[Event])
        requires clock { self.old.watch.closing.end.0 + 1 < 2 ^ 64 }
        requires count { self.old.watch.closing.acknowledged + 1 < 2 ^ 64 }
        ensures { self.new ≡ noted_before self.old event.now behind.now }
    {
        // many events, and cheap to see
        if tells_nothing(&event.kind) && !tells_loss(behind) {
            return;
        }
        let now = ticks_after(self.watch.closing().end, &event.kind);
        let seen = seen_beside(now, self.since, &event.kind, behind);
        self.watch.note(event, seen);
        self.since = since_after(self.since, &event.kind);
    }

    /// How the run closes if it ends here. This takes no memory.
    pub fn closing(&self) -> Closing
        ensures { result ≡ self.now.watch.closing }
    {
        self.watch.closing()
    }
}
