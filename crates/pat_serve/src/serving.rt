//! One connection served.
ghost use Rattle.std.specs.Prelude.{ℕ, Bool, ◌≡◌, ◌+◌, ◌≤◌, ◌∷◌, [], option_map, IfOk, OnOk};
ghost use Rattle.script_model.specs.Script.{IsMember};
ghost use Rattle.cluster_model.specs.Next.{next_events};
ghost use Rattle.cluster_model.specs.Starting.{cluster_of};
ghost use Rattle.cluster_model.specs.Steps.{IsStep, names_in};
ghost use Rattle.pat_door.specs.Doors.{after_hang_up};
ghost use Rattle.run_model.specs.Run.{Played, run_of};
ghost use Rattle.simulation.specs.Book.{StandsFor};
ghost use Rattle.simulation.specs.Steps.{HasStepsLeft};
ghost use Rattle.rest_message.specs.Replies.{reply_text};
ghost use Rattle.serve_model.specs.Connections.{Connection, connection_cost, failure_steps, most_waiting, replied, replied_steps, reply_in, steps_of_connection, waiting_steps};
ghost use Rattle.pat_serve.specs.Serving.{Answers, Brings, GoesOn, Serves};

use crate::asking::{asked_on, asks_for_a_head, first_visit};
use crate::replying::{is_written, reply_in};
use cluster_model::{Step, Visit};
use event_list::EventList;
use pat_base::MemberId;
use pat_door::Door;
use rest_answer::{Refusal, refusal_reply};
use rest_message::{Reply, Request};
use simulation::Simulation;
use std::alloc::{AllocError, Global};

/// The most ticks of 100 ms for which a reply is waited.
pub const MOST_WAITING: u64 = 600;

/// Serves the present connection of a door, to the REST interface of the agent of a declared member, and ends it.
///
/// What the connection brings are the next steps of the world, and their events, step by step, are added to the list, each step's with its
/// messages traced: its request, then ticks of the default schedule until the agent replies, for at most 600, and a failure of a read or a
/// write. A request to an agent that doesn't run or is suspended is answered 503 `No agent`, one that isn't replied to in time 503
/// `No result in time`, and bytes that are no request 400. Where a write fails, a front of the reply was answered, and where a read does,
/// nothing. On Err, want of memory, the world may have taken steps whose events aren't in the list; where memory ran out in one of them, each
/// further step answers Err again.
pub fn serve_one<W: Simulation, D: Door>(
    alloc: Global,
    world: &mut W,
    member: MemberId,
    door: &mut D,
    events: &mut Vec<EventList>,
) -> Result<(), AllocError>
    requires room { HasStepsLeft (W.facts world.old) connection_cost }
    requires declared { IsMember (names_in (W.facts world.old).cluster.facts.members) member }
    ensures serves { OnOk result ((connection : Connection)
        × Brings (W.facts world.old) (W.facts world.new) events.old.items events.new.items (steps_of_connection (W.facts world.old).cluster member connection)
        × Serves D.Door door.old door.new (D.told door.new) (W.facts world.old).cluster member connection) }
    // Whichever run brought the world here goes on: what is promised of every run was promised of it, and is so of the world after it.
    ensures goes_on { OnOk result ((played : Played) → StandsFor (cluster_of played.head) (run_of played) (W.facts world.old).cluster
        → GoesOn played (W.facts world.old).cluster (W.facts world.new).cluster events.old.items events.new.items) }
    ensures grows { D.connection_faults door.old ≤ D.connection_faults door.new }
    ensures door { D.door_faults door.new ≡ D.door_faults door.old }
    ensures served { (n : ℕ) → D.serves door.old n → D.serves door.new n }
{
    let served = serve_present(alloc, world, member, door, events);
    door.hang_up();
    served
}

/// Serves the present connection, without ending it.
fn serve_present<W: Simulation, D: Door>(
    alloc: Global,
    world: &mut W,
    member: MemberId,
    door: &mut D,
    events: &mut Vec<EventList>,
) -> Result<(), AllocError>
    requires room { HasStepsLeft (W.facts world.old) connection_cost }
    requires declared { IsMember (names_in (W.facts world.old).cluster.facts.members) member }
    ensures serves { OnOk result ((connection : Connection)
        × Brings (W.facts world.old) (W.facts world.new) events.old.items events.new.items (steps_of_connection (W.facts world.old).cluster member connection)
        × Serves D.Door door.old door.new (option_map after_hang_up (D.told door.new)) (W.facts world.old).cluster member connection) }
    ensures grows { D.connection_faults door.old ≤ D.connection_faults door.new }
    ensures door { D.door_faults door.new ≡ D.door_faults door.old }
    ensures served { (n : ℕ) → D.serves door.old n → D.serves door.new n }
{
    match asked_on(alloc, door)? {
        Some(asks) => answer_to(alloc, world, member, asks, door, events),
        None => fail(alloc, world, member, events),
    }
}

/// Answers on the present connection, which asks this or is refused for this.
fn answer_to<W: Simulation, D: Door>(
    alloc: Global,
    world: &mut W,
    member: MemberId,
    asks: Result<Request, Refusal>,
    door: &mut D,
    events: &mut Vec<EventList>,
) -> Result<(), AllocError>
    requires room { HasStepsLeft (W.facts world.old) connection_cost }
    requires declared { IsMember (names_in (W.facts world.old).cluster.facts.members) member }
    ensures answers { OnOk result ((whole : Bool) × Answers D.Door door.old door.new (W.facts world.old) (W.facts world.new) events.old.items events.new.items member asks whole) }
    ensures grows { D.connection_faults door.old ≤ D.connection_faults door.new }
    ensures door { D.door_faults door.new ≡ D.door_faults door.old }
    ensures served { (n : ℕ) → D.serves door.old n → D.serves door.new n }
{
    let head_only = asks_for_a_head(&asks);
    let visit = first_visit(asks);
    let reply = reply_to(alloc, world, member, visit, events)?;
    if is_written(alloc, door, &reply, head_only)? {
        return Ok(());
    }
    fail(alloc, world, member, events)
}

/// The reply to what a connection brings: at once, or within the ticks for which it is waited.
fn reply_to<W: Simulation>(
    alloc: Global,
    world: &mut W,
    member: MemberId,
    visit: Visit,
    events: &mut Vec<EventList>,
) -> Result<Reply, AllocError>
    requires room { HasStepsLeft (W.facts world.old) (most_waiting + 2) }
    requires declared { IsMember (names_in (W.facts world.old).cluster.facts.members) member }
    ensures brings { OnOk result (Brings (W.facts world.old) (W.facts world.new) events.old.items events.new.items (replied_steps (W.facts world.old).cluster member visit)) }
    ensures replied { IfOk result (λ reply. reply_text reply ≡ replied (W.facts world.old).cluster member (replied_steps (W.facts world.old).cluster member visit)) }
{
    match bring(alloc, world, member, visit, events)? {
        Some(reply) => Ok(reply),
        None => awaited_reply(alloc, world, member, events),
    }
}

/// The reply that is waited for.
fn awaited_reply<W: Simulation>(
    alloc: Global,
    world: &mut W,
    member: MemberId,
    events: &mut Vec<EventList>,
) -> Result<Reply, AllocError>
    requires room { HasStepsLeft (W.facts world.old) (most_waiting + 1) }
    requires declared { IsMember (names_in (W.facts world.old).cluster.facts.members) member }
    ensures brings { OnOk result (Brings (W.facts world.old) (W.facts world.new) events.old.items events.new.items (waiting_steps (W.facts world.old).cluster member most_waiting)) }
    ensures replied { IfOk result (λ reply. reply_text reply ≡ replied (W.facts world.old).cluster member (waiting_steps (W.facts world.old).cluster member most_waiting)) }
{
    let mut left = MOST_WAITING;
    while left > 0 {
        if let Some(reply) = tick(alloc, world, member, events)? {
            return Ok(reply);
        }
        left -= 1;
    }
    let late = Visit::Refusal(Refusal::NoResult);
    match bring(alloc, world, member, late, events)? {
        Some(reply) => Ok(reply),
        None => refusal_reply(alloc, Refusal::NoResult),
    }
}

/// A read or a write of the connection failed.
fn fail<W: Simulation>(
    alloc: Global,
    world: &mut W,
    member: MemberId,
    events: &mut Vec<EventList>,
) -> Result<(), AllocError>
    requires room { HasStepsLeft (W.facts world.old) 1 }
    requires declared { IsMember (names_in (W.facts world.old).cluster.facts.members) member }
    ensures { OnOk result (Brings (W.facts world.old) (W.facts world.new) events.old.items events.new.items (failure_steps member)) }
{
    bring(alloc, world, member, Visit::Failure, events)?;
    Ok(())
}

/// What a connection brings, as the next step; what the agent of the member replies in it, if it does.
fn bring<W: Simulation>(
    alloc: Global,
    world: &mut W,
    member: MemberId,
    visit: Visit,
    events: &mut Vec<EventList>,
) -> Result<Option<Reply>, AllocError>
    requires room { HasStepsLeft (W.facts world.old) 1 }
    requires declared { IsMember (names_in (W.facts world.old).cluster.facts.members) member }
    ensures brings { OnOk result (Brings (W.facts world.old) (W.facts world.new) events.old.items events.new.items (Step.Connection member visit ∷ [])) }
    ensures replied { IfOk result (λ reply. option_map reply_text reply ≡ reply_in member (next_events (W.facts world.old).cluster (Step.Connection member visit))) }
{
    let step = Step::Connection(member, visit);
    take(alloc, world, member, &step, events)
}

/// A tick of the default schedule, as the next step.
fn tick<W: Simulation>(
    alloc: Global,
    world: &mut W,
    member: MemberId,
    events: &mut Vec<EventList>,
) -> Result<Option<Reply>, AllocError>
    requires { HasStepsLeft (W.facts world.old) 1 }
    ensures brings { OnOk result (Brings (W.facts world.old) (W.facts world.new) events.old.items events.new.items (Step.Scheduled ∷ [])) }
    ensures replied { IfOk result (λ reply. option_map reply_text reply ≡ reply_in member (next_events (W.facts world.old).cluster Step.Scheduled)) }
{
    take(alloc, world, member, &Step::Scheduled, events)
}

/// One more step; what the agent of the member replies in it, if it does.
fn take<W: Simulation>(
    alloc: Global,
    world: &mut W,
    member: MemberId,
    step: &Step,
    events: &mut Vec<EventList>,
) -> Result<Option<Reply>, AllocError>
    requires room { HasStepsLeft (W.facts world.old) 1 }
    requires declared { IsStep (W.facts world.old).cluster.facts.members step.now }
    ensures brings { OnOk result (Brings (W.facts world.old) (W.facts world.new) events.old.items events.new.items (step.now ∷ [])) }
    ensures replied { IfOk result (λ reply. option_map reply_text reply ≡ reply_in member (next_events (W.facts world.old).cluster step.now)) }
{
    let mut brought = EventList::new(alloc, true);
    world.step(step, &mut brought)?;
    let reply = reply_in(alloc, member, brought.kept())?;
    events.push(brought)?;
    Ok(reply)
}
