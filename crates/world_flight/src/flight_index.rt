//! Which messages in flight a round has to look at: those that may move, and not those that are kept for receivers that are
//! suspended.
ghost use Rattle.std.specs.Prelude.{ℕ, ◌≡◌, ◌≢◌, ◌≤◌, ◌<◌, ◌+◌, ◌*◌, ◌++◌, ◌∷◌, [], OnOk, OnErr, IfSome, true, false};
ghost use Rattle.event_book.specs.Links.{end_count, end_number, place_count};
ghost use Rattle.world_flight.specs.FlightIndex.{IsLooser, IsLooserBut, Concerns, ConcernsLink, ConcernsMachine, ConcernsReceiver, Takes, is_among, is_kept, kept_on, may_move, message_way, way_of};

use event_book::{AgentEvent, EventKind, Link, LinkEnd, LinkEvent, Member, Message, WatchdogEvent};
use pat_base::MOST_MEMBERS;
use std::alloc::{AllocError, Global};
use std::collections::BTreeSet;
use std::marker::Model;

/// How many ends links may have: the members and the key store.
const ENDS: usize = MOST_MEMBERS + 1;

/// Numbers of messages.
#[derive(Drop)]
struct Numbers {
    numbers: Vec<u64>,
}

impl Model for Numbers {
    ghost use Rattle.std.specs.Prelude.{ℕ, List};

    ghost Value = { List ℕ };

    ghost view = { λ n. n.numbers.items };
}

/// The numbers of the messages in flight that may move, and by their ways the numbers of those that are kept for receivers
/// that are suspended. A way leads to one end of a link from the other one.
///
/// Messages that are sent have numbers at which no round has looked yet, and rounds look at one after another: so most numbers of
/// messages that may move needn't be kept.
#[derive(Drop)]
pub struct FlightIndex {
    /// No round has looked at this number or a later one.
    unseen: u64,
    /// The numbers before it of messages that may move.
    moving: BTreeSet<u64>,
    kept: Vec<Numbers>,
}

impl Model for FlightIndex {
    ghost use Rattle.std.specs.Prelude.{◌≡◌, length};
    ghost use Rattle.event_book.specs.Links.{place_count};
    ghost use Rattle.world_flight.specs.FlightIndex.{IndexFacts};

    ghost Value = { IndexFacts };

    ghost view = { λ i. record { unseen = i.unseen; moving = i.moving.keys; kept = i.kept.items } };

    ghost invariant = { λ i. length i.kept.items ≡ place_count };
}

impl Numbers {
    /// None. This takes no memory.
    fn new(alloc: Global) -> Numbers
        ensures { result ≡ [] }
    {
        Numbers {
            numbers: Vec::new(alloc),
        }
    }

    /// Puts a number behind them. It fails only for want of memory.
    fn push(&mut self, number: u64) -> Result<(), AllocError>
        ensures ok { OnOk result (self.new ≡ self.old ++ number ∷ []) }
        ensures err { OnErr result (self.new ≡ self.old) }
    {
        self.numbers.push(number)?;
        Ok(())
    }

    /// All of them.
    fn as_slice(&self) -> &[u64]
        ensures { result.now ≡ self.now }
    {
        self.numbers.as_slice()
    }

    /// Lets go of all.
    fn clear(&mut self)
        ensures { self.new ≡ [] }
    {
        self.numbers.clear();
    }
}

impl FlightIndex {
    /// That of no message. It fails only for want of memory.
    pub fn new(alloc: Global) -> Result<FlightIndex, AllocError> {
        let mut kept = Vec::new(alloc);
        for _ in 0..Link::PLACES {
            kept.push(Numbers::new(alloc))?;
        }
        Ok(FlightIndex {
            unseen: 0,
            moving: BTreeSet::new(alloc),
            kept,
        })
    }

    /// The least number from this one on that may move.
    pub fn first_from(&self, from: u64) -> u64
        ensures from { from ≤ result }
        ensures passed { (k : ℕ) → from ≤ k → k < result → may_move self.now k ≡ false }
    {
        let unseen = self.unseen.max(from);
        match self.moving.range(from..).next() {
            Some(number) if *number < unseen => *number,
            _ => unseen,
        }
    }

    /// The message of this number may move. It fails only for want of memory.
    pub fn insert(&mut self, number: u64) -> Result<(), AllocError>
        ensures looser { IsLooser self.old self.new }
        ensures there { OnOk result (may_move self.new number ≡ true) }
    {
        if number < self.unseen {
            self.moving.insert(number)?;
        }
        Ok(())
    }

    /// The message of this number is in flight no longer.
    pub fn remove(&mut self, number: u64)
        ensures looser { IsLooserBut number self.old self.new }
        ensures kept { self.new.kept ≡ self.old.kept }
    {
        self.moving.remove(&number);
        if number == self.unseen {
            self.unseen = number.saturating_add(1);
        }
    }

    /// The message of this number is kept on a way. It fails only for want of memory.
    pub fn keep(&mut self, way: usize, number: u64) -> Result<(), AllocError>
        requires { way < place_count }
        ensures others { IsLooserBut number self.old self.new }
        ensures kept { OnOk result (is_kept self.new way number ≡ true) }
        ensures err { OnErr result (self.new ≡ self.old) }
    {
        self.kept[way].push(number)?;
        self.remove(number);
        Ok(())
    }

    /// The messages that a happening concerns may move. It fails only for want of memory.
    pub fn stir(&mut self, kind: &EventKind) -> Result<(), AllocError>
        ensures looser { IsLooser self.old self.new }
        ensures woken { OnOk result ((to from : ℕ) → from < end_count → Concerns kind.now to from → kept_on self.new (way_of to from) ≡ []) }
    {
        match kind {
            EventKind::Agent(happening) => self.stir_receiver(happening),
            EventKind::Watchdog(happening) => self.stir_machine(happening),
            EventKind::Link(happening) => self.stir_link(happening),
            _ => Ok(()),
        }
    }

    fn stir_receiver(&mut self, happening: &AgentEvent) -> Result<(), AllocError>
        ensures looser { IsLooser self.old self.new }
        ensures woken { OnOk result ((to from : ℕ) → from < end_count → ConcernsReceiver happening.now to → kept_on self.new (way_of to from) ≡ []) }
    {
        match happening {
            AgentEvent::Suspended { agent }
            | AgentEvent::Resumed { agent }
            | AgentEvent::Killed { agent }
            | AgentEvent::Started { agent, .. } => self.wake_receiver(*agent),
            _ => Ok(()),
        }
    }

    fn stir_machine(&mut self, happening: &WatchdogEvent) -> Result<(), AllocError>
        ensures looser { IsLooser self.old self.new }
        ensures woken { OnOk result ((to from : ℕ) → from < end_count → ConcernsMachine happening.now to → kept_on self.new (way_of to from) ≡ []) }
    {
        match happening {
            WatchdogEvent::Reset { member } => self.wake_receiver(*member),
            _ => Ok(()),
        }
    }

    fn stir_link(&mut self, happening: &LinkEvent) -> Result<(), AllocError>
        ensures looser { IsLooser self.old self.new }
        ensures woken { OnOk result ((to from : ℕ) → ConcernsLink happening.now to from → kept_on self.new (way_of to from) ≡ []) }
    {
        match happening {
            LinkEvent::Cut(link) | LinkEvent::Joined(link) => self.wake_link(*link),
        }
    }

    /// The messages to a member may move. It fails only for want of memory.
    fn wake_receiver(&mut self, member: Member) -> Result<(), AllocError>
        ensures looser { IsLooser self.old self.new }
        ensures woken { OnOk result ((from : ℕ) → from < end_count → kept_on self.new (way_of member.id.number from) ≡ []) }
    {
        let to = member.id.number as usize;
        for from in 0..ENDS {
            self.wake(to * ENDS + from)?;
        }
        Ok(())
    }

    /// The messages that take a link may move. It fails only for want of memory.
    fn wake_link(&mut self, link: Link) -> Result<(), AllocError>
        ensures looser { IsLooser self.old self.new }
        ensures woken { OnOk result ((to from : ℕ) → Takes link to from → kept_on self.new (way_of to from) ≡ []) }
    {
        self.wake(way_between(link.first, link.second))?;
        self.wake(way_between(link.second, link.first))
    }

    /// The messages on a way may move. It fails only for want of memory.
    fn wake(&mut self, way: usize) -> Result<(), AllocError>
        requires { way < place_count }
        ensures looser { IsLooser self.old self.new }
        ensures woken { OnOk result (kept_on self.new way ≡ []) }
        ensures empty { (w : ℕ) → kept_on self.old w ≡ [] → kept_on self.new w ≡ [] }
    {
        let numbers = &mut self.kept[way];
        insert_all(&mut self.moving, numbers.as_slice())?;
        numbers.clear();
        Ok(())
    }
}

/// Puts these numbers into a set. It fails only for want of memory.
fn insert_all(moving: &mut BTreeSet<u64>, numbers: &[u64]) -> Result<(), AllocError>
    ensures grows { (n : ℕ) → is_among moving.new.keys n ≡ false → is_among moving.old.keys n ≡ false }
    ensures all { OnOk result ((n : ℕ) → is_among moving.new.keys n ≡ false → is_among numbers.now n ≡ false) }
{
    for number in numbers {
        moving.insert(*number)?;
    }
    Ok(())
}

/// The place of a message's way.
pub fn message_way(message: &Message) -> usize
    ensures way { result ≡ message_way message.now }
    ensures within { result < place_count }
{
    way_between(message.to, message.from)
}

/// The place of the way to one end of a link from another.
fn way_between(to: LinkEnd, from: LinkEnd) -> usize
    ensures way { result ≡ way_of (end_number to) (end_number from) }
    ensures within { result < place_count }
{
    to.number() as usize * ENDS + from.number() as usize
}
