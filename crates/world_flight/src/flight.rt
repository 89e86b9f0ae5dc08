//! Messages in flight.
ghost use Rattle.std.specs.Prelude.{ℕ, ◌≡◌, ◌≢◌, ◌≤◌, ◌<◌, ◌↔◌, nat_le, [], length, position, OnOk, IfOk, IfSome, IfNone, IsTrue, Some, None, option_copied};
ghost use Rattle.std.specs.BTreeMap.{is_at};
ghost use Rattle.std.specs.Map.{keys_of};
ghost use Rattle.std.specs.List.Sorted.{IsStrictlySortedBy};
ghost use Rattle.std.specs.Ordering.{nat_cmp};
ghost use Rattle.lease_store.specs.Keys.{Keys};
ghost use Rattle.event_book.specs.Flight.{Flight, InFlightFacts, flight_after, in_flight, without_message};
ghost use Rattle.world_model.specs.Comes.{IsBare};
ghost use Rattle.world_flight.specs.Launches.{IsFlight, launched_into};
ghost use Rattle.cluster_model.specs.Limits.{most_in_flight};
ghost use Rattle.world_model.specs.Short.{IsSent};

use event_book::{EventKind, Message, MessageEvent};
use lease_store::{Copies, Granted};
use pat_base::{Shared, Ticks};
use std::alloc::{AllocError, Global};
use std::collections::BTreeMap;
use std::marker::Model;

/// The most messages that may be in flight.
const MOST: usize = 65_536;

/// The most messages that stand in the row of the latest.
const LATEST: usize = 32;

/// A message on its way, with what an answer of the store carries beside its words: what the store had when it was sent,
/// and the grant.
#[derive(Drop)]
pub struct InFlight {
    pub message: Shared<Message>,
    /// The moment of its sending.
    pub sent: Ticks,
    pub snapshot: Option<Copies>,
    pub grant: Option<Granted>,
}

impl Model for InFlight {
    ghost use Rattle.event_book.specs.Flight.{InFlightFacts};
    ghost use Rattle.lease_store.specs.Copied.{items_if};

    ghost Value = { InFlightFacts };

    ghost view = { λ m. record { message = m.message; sent = m.sent; snapshot = items_if m.snapshot; grant = m.grant } };
}

/// The messages in flight, by their numbers. Most come to their receivers soon, in the order of their sending: so the latest stand in a
/// row, and only those that stay longer in a map.
#[derive(Drop)]
pub struct Flight {
    earlier: BTreeMap<u64, InFlight>,
    /// Those that were sent last, in the order of their numbers.
    latest: Vec<(u64, InFlight)>,
}

impl Model for Flight {
    ghost use Rattle.std.specs.Prelude.{◌++◌};
    ghost use Rattle.event_book.specs.Flight.{Flight};
    ghost use Rattle.world_flight.specs.Launches.{IsFlight};

    ghost Value = { Flight };

    ghost view = { λ f. f.earlier.entries ++ f.latest.items };

    ghost invariant = { λ f. IsFlight (f.earlier.entries ++ f.latest.items) };
}

impl Flight {
    /// No message. This takes no memory.
    pub fn new(alloc: Global) -> Flight
        ensures { result ≡ [] }
    {
        Flight {
            earlier: BTreeMap::new(alloc),
            latest: Vec::new(alloc),
        }
    }

    /// How many messages are in flight.
    pub fn len(&self) -> usize
        ensures { result ≡ length self.now }
    {
        self.earlier.len() + self.latest.len()
    }

    /// Whether none is in flight.
    pub fn is_empty(&self) -> bool
        ensures none { IsTrue result ↔ (self.now ≡ []) }
        ensures few { length self.now ≤ most_in_flight }
        ensures order { IsStrictlySortedBy nat_cmp (keys_of self.now) }
    {
        self.earlier.len() == 0 && self.latest.len() == 0
    }

    /// The message of this number. `None` exactly where it isn't in flight.
    pub fn get(&self, number: u64) -> Option<&InFlight>
        ensures { option_copied result ≡ in_flight self.now number }
    {
        match place_of(&self.latest, number) {
            Some(place) => Some(&self.latest[place].1),
            None => self.earlier.get(&number),
        }
    }

    /// Sends a message under a number. It answers whether the message was lost at once, which it is where as many are in
    /// flight as may be. It fails only for want of memory.
    pub fn launch(&mut self, number: u64, message: InFlight) -> Result<bool, AllocError>
        requires sent { IsSent message }
        requires newest { (n : ℕ) (m : InFlightFacts) → in_flight self.old n ≡ Some m → n < number }
        ensures flight { OnOk result (self.new ≡ launched_into self.old number message) }
        ensures lost { IfOk result (λ lost. lost ≡ nat_le most_in_flight (length self.old)) }
        ensures others { (n : ℕ) (m : InFlightFacts) → n ≢ number → in_flight self.new n ≡ Some m → in_flight self.old n ≡ Some m }
    {
        if self.is_full() {
            return Ok(true);
        }
        self.make_room()?;
        self.latest.push((number, message))?;
        Ok(false)
    }

    /// Whether as many messages are in flight as may be.
    fn is_full(&self) -> bool
        ensures full { result ≡ nat_le most_in_flight (length self.now) }
        ensures flight { IsFlight self.now }
    {
        self.earlier.len() + self.latest.len() >= MOST
    }

    /// Where the row of the latest is full, its first message goes to the earlier ones. It fails only for want of memory, and then loses
    /// that one.
    fn make_room(&mut self) -> Result<(), AllocError>
        ensures same { OnOk result (self.new ≡ self.old) }
        ensures others { (n : ℕ) (m : InFlightFacts) → in_flight self.new n ≡ Some m → in_flight self.old n ≡ Some m }
    {
        if self.latest.len() < LATEST {
            return Ok(());
        }
        let (number, message) = self.latest.remove(0);
        self.earlier.insert(number, message)?;
        Ok(())
    }

    /// Takes the message of this number out. `None` exactly where it isn't in flight.
    pub fn land(&mut self, number: u64) -> Option<InFlight>
        ensures flight { self.new ≡ without_message self.old number }
        ensures message { result ≡ in_flight self.old number }
        ensures sent { IfSome result IsSent }
        ensures absent { IfNone result (self.new ≡ self.old) }
        ensures gone { in_flight self.new number ≡ None }
        ensures others { (n : ℕ) (m : InFlightFacts) → in_flight self.new n ≡ Some m → in_flight self.old n ≡ Some m }
    {
        match place_of(&self.latest, number) {
            Some(place) => {
                let (_, message) = self.latest.remove(place);
                Some(message)
            }
            None => self.earlier.remove(&number),
        }
    }
}

/// The messages in flight after a happening, which sends none.
pub fn change_flight(flight: &mut Flight, kind: &EventKind)
    requires { IsBare kind.now }
    ensures flight { (now : ℕ) (known : Keys) → flight.new ≡ flight_after now known flight.old kind.now }
    ensures others { (n : ℕ) (m : InFlightFacts) → in_flight flight.new n ≡ Some m → in_flight flight.old n ≡ Some m }
{
    if let EventKind::Message(MessageEvent::Lost { number }) = kind {
        let _ = flight.land(*number);
    }
}

/// The place of a message among those of a row.
fn place_of(row: &[(u64, InFlight)], number: u64) -> Option<usize>
    ensures { result ≡ position (λ entry. is_at (nat_cmp number) entry.0) row.now }
{
    row.iter().position(|(other, _)| number.cmp(other).is_eq())
}
