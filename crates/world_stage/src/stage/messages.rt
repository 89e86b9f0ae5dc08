//! Messages: how they are sent and come, which of them move, and what the key store decides.
ghost use Rattle.std.specs.Prelude.{ℕ, ◌≡◌, ◌≤◌, ◌<◌, ◌+◌, ◌^◌, [], length, false, OnOk, IfOk, IfSome, None, option_map};
ghost use Rattle.std.specs.Map.{keys_of};
ghost use Rattle.std.specs.List.Sorted.{IsStrictlySortedBy};
ghost use Rattle.std.specs.Ordering.{nat_cmp};
ghost use Rattle.agent_model.specs.Outputs.{most_outputs};
ghost use Rattle.world_flight.specs.FlightIndex.{AreNumbered};
ghost use Rattle.world_stage.specs.Arrivals.{Landed, Reaches};
ghost use Rattle.lease_store.specs.Decision.{decision_on};
ghost use Rattle.lease_store.specs.Writes.{ttl_of};
ghost use Rattle.event_book.specs.Flight.{in_flight, grant_for};
ghost use Rattle.event_list.specs.Listed.{◌+++◌};
ghost use Rattle.cluster_model.specs.Hearing.{heard_from};
ghost use Rattle.cluster_model.specs.Limits.{most_in_flight};
ghost use Rattle.cluster_model.specs.Messages.{lost_at_once, send_events, answer_message, answer_events, decision_events, message_events};
ghost use Rattle.cluster_model.specs.Parts.{events_at};
ghost use Rattle.world_model.specs.Room.{HasRoom, decision_cost, hearing_cost, sending_cost};
ghost use Rattle.world_model.specs.Short.{IsSent, IsShort};
ghost use Rattle.world_model.specs.Emits.{Emits};
ghost use Rattle.cluster_model.specs.Deliveries.{delivery_of};

use super::Stage;
use crate::arrival::Arrival;
use cluster_model::{Delivery, HeardMessage};
use event_book::{Body, EventKind, LinkEnd, Member, Message, MessageEvent, StoreEvent};
use event_list::EventList;
use lease_store::{Granted, StoreRefusal};
use pat_base::{Shared, Ticks};
use std::alloc::AllocError;
use store_keys::Txn;
use world_agents::Outputs;
use world_fields::deliveries::delivery_of;
use world_fields::naming::published_names;
use world_fields::snapshots::snapshot_for;
use world_fields::writing::write_down;
use world_flight::flight::InFlight;
use world_flight::flight_index::message_way;

impl Stage {
    /// The first message that may move of those with numbers from this one to the last. Those before it stay where they are.
    pub fn next_to_move(&self, from: u64, last: u64) -> Option<u64>
        ensures from { IfSome result (λ n. from ≤ n) }
        ensures last { IfSome result (λ n. n ≤ last) }
        ensures still { (k : ℕ) → from ≤ k → k ≤ last → IfSome result (λ n. k < n) → message_events self.now k ≡ [] }
    {
        let number = self.index.first_from(from);
        if number > last {
            return None;
        }
        Some(number)
    }

    /// No round need look for a message that isn't in flight.
    pub fn forget(&mut self, number: u64)
        requires { in_flight self.old.facts.flight number ≡ None }
        ensures { self.new ≡ self.old }
    {
        self.index.remove(number);
    }

    /// No round need look at a message whose receiver is suspended, until something happens that concerns it. It fails only
    /// for want of memory.
    pub fn keep(&mut self, number: u64) -> Result<(), AllocError>
        requires { IfSome (in_flight self.old.facts.flight number) (λ m. delivery_of self.old.facts.cuts self.old.facts.processes m.message ≡ Delivery.Suspended) }
        ensures { self.new ≡ self.old }
    {
        let Some(carried) = self.flight.get(number) else {
            return Ok(());
        };
        self.index.keep(message_way(carried.message.get()), number)?;
        Ok(())
    }

    /// What stands between a message and its receiver. `None` exactly where it isn't in flight.
    pub fn delivery(&self, number: u64) -> Option<Delivery>
        ensures { result ≡ option_map (λ m. delivery_of self.now.facts.cuts self.now.facts.processes m.message) (in_flight self.now.facts.flight number) }
    {
        let carried = self.flight.get(number)?;
        Some(delivery_of(&self.cuts, &self.processes, carried.message.get()))
    }

    /// Whether messages are in flight.
    pub fn has_messages(&self) -> bool
        ensures none { result ≡ false → self.now.facts.flight ≡ [] }
        ensures few { length self.now.facts.flight ≤ most_in_flight }
        ensures order { IsStrictlySortedBy nat_cmp (keys_of self.now.facts.flight) }
        ensures numbered { AreNumbered self.now.facts.sent self.now.facts.flight }
    {
        !self.flight.is_empty()
    }

    /// A message in flight comes to its receiver, and an agent acts on it: what it does is put into the list. `None` exactly where no
    /// message of this number is in flight. It fails only for want of memory.
    pub fn land(
        &mut self,
        number: u64,
        outputs: &mut Outputs,
        events: &mut EventList,
    ) -> Result<Option<Arrival>, AllocError>
        requires room { HasRoom self.old hearing_cost }
        requires spare { most_outputs ≤ outputs.old.spare }
        requires none { outputs.old.outputs ≡ [] }
        ensures landed { IfOk result (λ arrival. Landed self.old self.new events.old events.new outputs.new.outputs number (in_flight self.old.facts.flight number) arrival) }
    {
        let Some(carried) = self.flight.land(number) else {
            return Ok(None);
        };
        self.index.remove(number);
        let arrival = self.reach(number, carried, outputs)?;
        write_down(
            events,
            self.clock,
            EventKind::Message(MessageEvent::Delivered { number }),
        )?;
        Ok(Some(arrival))
    }

    /// What was in flight reaches its receiver.
    fn reach(
        &mut self,
        number: u64,
        carried: InFlight,
        outputs: &mut Outputs,
    ) -> Result<Arrival, AllocError>
        requires room { HasRoom self.old hearing_cost }
        requires spare { most_outputs ≤ outputs.old.spare }
        requires none { outputs.old.outputs ≡ [] }
        requires sent { IsSent carried }
        ensures reached { IfOk result (λ arrival. Reaches self.old self.new outputs.new.outputs number carried carried.message.to arrival) }
    {
        match carried.message.get().to {
            LinkEnd::Store => Ok(Arrival::AtStore(carried.message)),
            LinkEnd::Member(member) => {
                let heard = HeardMessage {
                    number,
                    incarnation: carried.message.get().incarnation,
                    sent: carried.sent,
                };
                let said = self.heard_from(carried)?;
                self.agent_hears_if(member, said, outputs);
                Ok(Arrival::AtAgent(member, heard))
            }
        }
    }

    /// The store answers a read with a snapshot, and a request with its decision.
    pub fn answer(
        &mut self,
        number: u64,
        message: &Message,
        events: &mut EventList,
    ) -> Result<(), AllocError>
        requires room { HasRoom self.old decision_cost }
        requires short { IsShort message.now.body }
        ensures { OnOk result (Emits self.old self.new events.old events.new (answer_events self.old number message.now) decision_cost) }
    {
        match &message.body {
            Body::Read => self.send(answer_message(message, Body::Snapshot), None, events),
            Body::Request(txn) => self.decide(number, message, txn, events),
            _ => Ok(()),
        }
    }

    /// The store decides on the request that a message carries.
    fn decide(
        &mut self,
        number: u64,
        message: &Message,
        txn: &Shared<Txn>,
        events: &mut EventList,
    ) -> Result<(), AllocError>
        requires room { HasRoom self.old decision_cost }
        requires span { ttl_of txn.now ≤ 2 ^ 40 }
        ensures { OnOk result (Emits self.old self.new events.old events.new (decision_events self.old number message.now txn.now (decision_on self.old.facts.keys self.old.facts.clock txn.now) message.now.from) decision_cost) }
    {
        let LinkEnd::Member(by) = message.from else {
            return Ok(());
        };
        let asked = txn.get();
        match self.store.apply(self.clock, by.id, asked) {
            Ok(grant) => {
                let granted = StoreEvent::Granted {
                    number,
                    by,
                    txn: txn.try_clone()?,
                    standbys: published_names(self.alloc, &self.members, asked)?,
                };
                write_down(events, self.clock, EventKind::Store(granted))?;
                let body = Body::Granted {
                    request: number,
                    leased: grant.leased(),
                };
                self.send(answer_message(message, body), Some(grant), events)
            }
            Err(StoreRefusal::Mismatch { key, found }) => {
                let refused = StoreEvent::Refused {
                    number,
                    by,
                    request: asked.kind(),
                    key,
                    found,
                };
                write_down(events, self.clock, EventKind::Store(refused))?;
                let body = Body::Refused {
                    request: number,
                    key,
                    found,
                };
                self.send(answer_message(message, body), None, events)
            }
            Err(StoreRefusal::Memory) => Err(AllocError),
        }
    }

    /// A message is sent under the next number, with the snapshot and the grant that an answer of the store carries. One
    /// that is sent beyond the most in flight is lost at once.
    pub fn send(
        &mut self,
        message: Message,
        grant: Option<Granted>,
        events: &mut EventList,
    ) -> Result<(), AllocError>
        requires room { HasRoom self.old sending_cost }
        requires short { IsShort message.body }
        requires grant { grant ≡ grant_for message.body message.to self.old.facts.keys.revision }
        ensures { OnOk result (Emits self.old self.new events.old events.new (send_events self.old message) sending_cost) }
    {
        let number = self.sent + 1;
        let message = Shared::new(self.alloc, message)?;
        let carried = InFlight {
            message: message.try_clone()?,
            sent: self.clock,
            snapshot: snapshot_for(&mut self.store, self.clock, &message.get().body)?,
            grant,
        };
        self.index.insert(number)?;
        self.sent = number;
        let lost = self.flight.launch(number, carried)?;
        write_down(
            events,
            self.clock,
            EventKind::Message(MessageEvent::Sent { number, message }),
        )?;
        tell_lost(events, self.clock, lost, number)
    }
}

/// An answer of the store.
fn answer_message(message: &Message, body: Body) -> Message
    ensures { result ≡ answer_message message.now body }
{
    Message {
        from: LinkEnd::Store,
        to: message.from,
        incarnation: message.incarnation,
        sequence: message.sequence,
        body,
    }
}

/// Writes down that a message was lost at once, if it was.
fn tell_lost(events: &mut EventList, tick: Ticks, lost: bool, number: u64) -> Result<(), AllocError>
    ensures { OnOk result (events.new ≡ events.old +++ events_at tick (lost_at_once lost number)) }
{
    if lost {
        write_down(
            events,
            tick,
            EventKind::Message(MessageEvent::Lost { number }),
        )
    } else {
        Ok(())
    }
}
