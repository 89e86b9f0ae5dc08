//! Messages in flight: which move in a round, and what scripts do with one.
ghost use Rattle.std.specs.Prelude.{◌<◌, ◌+◌, ◌*◌, OnOk, IfSome, None};
ghost use Rattle.std.specs.Map.{keys_of};
ghost use Rattle.event_book.specs.Flight.{in_flight};
ghost use Rattle.cluster_model.specs.Limits.{most_in_flight};
ghost use Rattle.cluster_model.specs.Messages.{arrival_events, deliver_events, lose_events, message_events};
ghost use Rattle.cluster_model.specs.Parts.{event_of, each, for_some};
ghost use Rattle.world_model.specs.Room.{HasRoom, message_cost};
ghost use Rattle.world_model.specs.Emits.{Emits};
ghost use Rattle.world_acts.specs.Asleep.{AreAsleep};

use cluster_model::Delivery;
use event_book::{EventKind, MessageEvent, Note};
use event_list::EventList;
use std::alloc::AllocError;
use world_acts::Sleepers;
use world_acts::carrying::carry_out;
use world_fields::writing::write_down;
use world_stage::{Arrival, Stage};

/// The messages that are in flight move, one after another. Those that are kept aren't looked at.
pub fn pass_messages(
    stage: &mut Stage,
    asleep: &mut Sleepers,
    events: &mut EventList,
) -> Result<(), AllocError>
    requires room { HasRoom stage.old (message_cost * most_in_flight) }
    requires asleep { AreAsleep asleep.old stage.old }
    ensures emits { OnOk result (Emits stage.old stage.new events.old events.new (each message_events stage.old (keys_of stage.old.facts.flight)) (message_cost * most_in_flight)) }
    ensures asleep { OnOk result (AreAsleep asleep.new stage.new) }
{
    if !stage.has_messages() {
        return Ok(());
    }
    // what is sent meanwhile has a greater number
    let last = stage.sent();
    let mut from = 0;
    while let Some(number) = stage.next_to_move(from, last) {
        pass_message(stage, number, asleep, events)?;
        from = number + 1;
    }
    Ok(())
}

/// A message comes to its receiver, is lost, or is kept for a receiver that is suspended.
fn pass_message(
    stage: &mut Stage,
    number: u64,
    asleep: &mut Sleepers,
    events: &mut EventList,
) -> Result<(), AllocError>
    requires room { IfSome (in_flight stage.old.facts.flight number) (λ m. HasRoom stage.old message_cost) }
    requires asleep { AreAsleep asleep.old stage.old }
    ensures emits { OnOk result (Emits stage.old stage.new events.old events.new (message_events stage.old number) message_cost) }
    ensures asleep { OnOk result (AreAsleep asleep.new stage.new) }
{
    match stage.delivery(number) {
        None => {
            stage.forget(number);
            Ok(())
        }
        Some(Delivery::Suspended) => stage.keep(number),
        Some(Delivery::Open) => arrive(stage, number, asleep, events),
        Some(Delivery::Cut | Delivery::Gone) => drop_message(stage, number, events),
    }
}

/// A script delivers a message, where it is in flight and nothing stands in its way.
pub fn deliver(stage: &mut Stage, number: u64, events: &mut EventList) -> Result<(), AllocError>
    requires { HasRoom stage.old message_cost }
    ensures { OnOk result (Emits stage.old stage.new events.old events.new (deliver_events stage.old number (in_flight stage.old.facts.flight number)) message_cost) }
{
    match stage.delivery(number) {
        None => write_down(
            events,
            stage.clock(),
            EventKind::Note(Note::NoMessage { number }),
        ),
        // nothing is made of who has nothing to do behind a line of a script
        Some(Delivery::Open) => arrive(stage, number, &mut Sleepers::none(), events),
        Some(Delivery::Gone) => drop_message(stage, number, events),
        Some(Delivery::Cut | Delivery::Suspended) => leave(stage, number, events),
    }
}

/// A message that can't come to its receiver now stays in flight, and that is noted.
fn leave(stage: &mut Stage, number: u64, events: &mut EventList) -> Result<(), AllocError>
    requires { HasRoom stage.old message_cost }
    ensures { OnOk result (Emits stage.old stage.new events.old events.new (event_of stage.old (EventKind.Note (Note.Undeliverable number))) message_cost) }
{
    stage.happen(EventKind::Note(Note::Undeliverable { number }), events)
}

/// A script loses a message, where it is in flight.
pub fn lose(stage: &mut Stage, number: u64, events: &mut EventList) -> Result<(), AllocError>
    requires { HasRoom stage.old 1 }
    ensures { OnOk result (Emits stage.old stage.new events.old events.new (lose_events stage.old number (in_flight stage.old.facts.flight number)) 1) }
{
    match stage.delivery(number) {
        None => write_down(
            events,
            stage.clock(),
            EventKind::Note(Note::NoMessage { number }),
        ),
        Some(_) => stage.happen(EventKind::Message(MessageEvent::Lost { number }), events),
    }
}

/// A message in flight is lost.
fn drop_message(stage: &mut Stage, number: u64, events: &mut EventList) -> Result<(), AllocError>
    requires { HasRoom stage.old message_cost }
    ensures { OnOk result (Emits stage.old stage.new events.old events.new (event_of stage.old (EventKind.Message (MessageEvent.Lost number))) message_cost) }
{
    stage.happen(EventKind::Message(MessageEvent::Lost { number }), events)
}

/// A message in flight comes to its receiver, which acts on it.
fn arrive(
    stage: &mut Stage,
    number: u64,
    asleep: &mut Sleepers,
    events: &mut EventList,
) -> Result<(), AllocError>
    requires room { HasRoom stage.old message_cost }
    requires asleep { AreAsleep asleep.old stage.old }
    ensures emits { OnOk result (Emits stage.old stage.new events.old events.new (for_some (in_flight stage.old.facts.flight number) (arrival_events stage.old number)) message_cost) }
    ensures asleep { OnOk result (AreAsleep asleep.new stage.new) }
{
    let mut outputs = stage.take_outputs()?;
    match stage.land(number, &mut outputs, events)? {
        None => {
            stage.give_back(outputs);
            Ok(())
        }
        Some(Arrival::AtStore(message)) => {
            let from = events.len();
            stage.answer(number, message.get(), events)?;
            stage.give_back(outputs);
            asleep.pass(events, from);
            Ok(())
        }
        Some(Arrival::AtAgent(member, heard)) => {
            asleep.forget(member.id);
            let from = events.len();
            carry_out(stage, member, heard, &mut outputs, events)?;
            stage.give_back(outputs);
            asleep.pass(events, from);
            Ok(())
        }
    }
}
