//! The list of the events of a step.
ghost use Rattle.std.specs.Prelude.{◌≡◌, ◌∷◌, ◌++◌, [], OnErr, OnOk, drop, length, if◌then◌else◌};
ghost use Rattle.event_list.specs.Kept.{kept_more, kept_of};
ghost use Rattle.event_list.specs.Listed.{◌+++◌};
ghost use Rattle.event_list.specs.Marks.{rouse_agents, stir_replicas};

use crate::rousing::rouses_agents;
use crate::silence::is_silent;
use crate::stirring::stirs_replicas;
use event_book::Event;
use ghost_list::GhostList;
use std::alloc::{AllocError, Global};
use std::marker::Model;

/// The events of a step, in the order in which they happened. Silent ones, which print nothing and which the summary doesn't count, take no
/// room, but for the first of the step: of them it is only known how many there are, and where the last stands that may give others
/// something to do.
#[derive(Drop)]
pub struct EventList {
    /// The first of the step, and those that aren't silent.
    kept: Vec<Event>,
    /// Whether messages are traced in the step.
    traced: bool,
    /// How many there are.
    count: usize,
    /// How many there are up to the last that may give replicas something to receive or to confirm.
    stirred: usize,
    /// How many there are up to the last that may give agents something to do.
    roused: usize,
    /// All of them.
    whole: GhostList<Event>,
}

impl Model for EventList {
    ghost use Rattle.event_list.specs.Kept.{IsListOf};
    ghost use Rattle.event_list.specs.Listed.{Listed};

    ghost Value = { Listed };

    ghost view = { λ list. record { items = list.whole.items; traced = list.traced } };

    ghost invariant = { λ list. IsListOf list.kept.items list.traced list.count list.stirred list.roused list.whole.items };
}

impl EventList {
    /// The list of a step in which nothing happened yet, and messages are traced or not. This takes no memory.
    pub fn new(alloc: Global, traced: bool) -> EventList
        ensures { result ≡ record { items = []; traced = traced } }
    {
        EventList {
            kept: Vec::new(alloc),
            traced,
            count: 0,
            stirred: 0,
            roused: 0,
            whole: GhostList::new(),
        }
    }

    /// Another step begins, in which nothing happened yet, and messages are traced or not.
    pub fn begin(&mut self, traced: bool)
        ensures { self.new ≡ record { items = []; traced = traced } }
    {
        self.clear();
        self.traced = traced;
    }

    /// Nothing is left of what happened.
    pub fn clear(&mut self)
        ensures { self.new ≡ record self.old { items = [] } }
    {
        self.kept.clear();
        self.count = 0;
        self.stirred = 0;
        self.roused = 0;
        self.whole = GhostList::new();
    }

    /// Writes an event down behind the others. It fails for want of memory, or where 2^64 - 1 stand there, and then nothing is written
    /// down. It is inlined, so that nothing is made of an event that is silent, whatever it has in it.
    #[inline(always)]
    pub fn push(&mut self, event: Event) -> Result<(), AllocError>
        ensures told { OnOk result (self.new ≡ self.old +++ event ∷ []) }
        ensures failed { OnErr result (self.new ≡ self.old) }
    {
        let Some(count) = self.count.checked_add(1) else {
            return Err(AllocError);
        };
        let whole = self.whole.and(&event);
        let stirred = last_if(stirs_replicas(&event.kind), count, self.stirred);
        let roused = last_if(rouses_agents(&event.kind), count, self.roused);
        keep(&mut self.kept, self.traced, event)?;
        self.count = count;
        self.stirred = stirred;
        self.roused = roused;
        self.whole = whole;
        Ok(())
    }

    /// How many events there are.
    pub fn len(&self) -> usize
        ensures { result ≡ length self.now.items }
    {
        self.count
    }

    /// Whether after one of the events behind so many a server may have something to receive or to confirm.
    pub fn stir_replicas(&self, from: usize) -> bool
        ensures { result ≡ stir_replicas (drop from self.now.items) }
    {
        from < self.stirred
    }

    /// Whether after one of the events behind so many an agent that had nothing to do may have.
    pub fn rouse_agents(&self, from: usize) -> bool
        ensures { result ≡ rouse_agents (drop from self.now.items) }
    {
        from < self.roused
    }

    /// The events but for those that are silent; the first of the step is among them in any case. What the summary makes of them is what
    /// it makes of all, and they print what all print, where lines of messages are printed only if they are traced here.
    pub fn kept(&self) -> &[Event]
        ensures { result.now ≡ kept_of self.now.traced self.now.items }
    {
        self.kept.as_slice()
    }
}

/// Keeps an event behind those that are kept of its step: the first, and any that isn't silent.
#[inline(always)]
fn keep(kept: &mut Vec<Event>, traced: bool, event: Event) -> Result<(), AllocError>
    ensures kept { OnOk result (kept.new.items ≡ kept.old.items ++ kept_more traced kept.old.items event) }
    ensures failed { OnErr result (kept.new.items ≡ kept.old.items) }
{
    if !kept.is_empty() && is_silent(traced, &event.kind) {
        return Ok(());
    }
    kept.push(event)?;
    Ok(())
}

/// The number of the last event that passes a test: this one, where it does, or the one before.
#[inline(always)]
fn last_if(passes: bool, number: usize, before: usize) -> usize
    ensures { result ≡ (if passes then number else before) }
{
    if passes { number } else { before }
}
