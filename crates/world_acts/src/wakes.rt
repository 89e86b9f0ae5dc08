//! Agents that are woken, and that start.
ghost use Rattle.std.specs.Prelude.{ℕ, ◌≤◌, ◌<◌, OnOk, IfSome, length, slice_get};
ghost use Rattle.cluster_model.specs.Messages.{turn_events, wake_events, wake_events_of};
ghost use Rattle.cluster_model.specs.Next.{agent_start_events};
ghost use Rattle.cluster_model.specs.Parts.{each};
ghost use Rattle.world_model.specs.Emits.{Emits};
ghost use Rattle.world_model.specs.Room.{HasRoom, input_cost, agent_start_cost, wakes_cost};
ghost use Rattle.world_acts.specs.Asleep.{AreAsleep, until_of};

use crate::carrying::carry_out;
use crate::sleepers::Sleepers;
use cluster_model::HeardMessage;
use event_book::Member;
use event_list::EventList;
use pat_base::Ticks;
use std::alloc::AllocError;
use world_fields::watchdogs::disarm_at_start;
use world_parts::processes::{agent_started, may_act};
use world_stage::Stage;

/// No message is heard by an agent that is woken.
pub const NO_MESSAGE: HeardMessage = HeardMessage {
    number: 0,
    incarnation: 0,
    sent: Ticks(0),
};

/// The agents are woken where they have something to do, in script order; those that are known to have nothing aren't looked at.
pub fn wakes(
    stage: &mut Stage,
    asleep: &mut Sleepers,
    events: &mut EventList,
) -> Result<(), AllocError>
    requires room { HasRoom stage.old wakes_cost }
    requires asleep { AreAsleep asleep.old stage.old }
    ensures emits { OnOk result (Emits stage.old stage.new events.old events.new (each wake_events stage.old stage.old.facts.members) wakes_cost) }
    ensures asleep { OnOk result (AreAsleep asleep.new stage.new) }
{
    let mut place = first_awake(stage.members(), asleep, stage.clock(), 0);
    while place < stage.member_count() {
        let member = stage.member(place);
        wake(stage, member, asleep, events)?;
        place = first_awake(stage.members(), asleep, stage.clock(), place + 1);
    }
    Ok(())
}

/// The first place from this one on of a member whose agent isn't known to have nothing to do at a moment, or how many members there are.
fn first_awake(members: &[Member], asleep: &Sleepers, moment: Ticks, from: usize) -> usize
    requires { from ≤ length members.now }
    ensures range { (from ≤ result) × (result ≤ length members.now) }
    ensures asleep { (place : ℕ) → from ≤ place → place < result → IfSome (slice_get members.now place) (λ member. moment.0 < until_of asleep.now member.id.number) }
{
    for place in from..members.len() {
        if asleep.until(members[place].id).0 <= moment.0 {
            return place;
        }
    }
    members.len()
}

/// The agent of a member that isn't known to have nothing to do is woken, where it has something to do.
fn wake(
    stage: &mut Stage,
    member: Member,
    asleep: &mut Sleepers,
    events: &mut EventList,
) -> Result<(), AllocError>
    requires room { HasRoom stage.old input_cost }
    requires asleep { AreAsleep asleep.old stage.old }
    ensures emits { OnOk result (Emits stage.old stage.new events.old events.new (wake_events stage.old member) input_cost) }
    ensures asleep { OnOk result (AreAsleep asleep.new stage.new) }
{
    let until = stage.wake_from(member, Ticks(u64::MAX));
    if stage.clock().0 < until.0 {
        asleep.set(member.id, until);
        return Ok(());
    }
    asleep.forget(member.id);
    let from = events.len();
    awaken(stage, member, events)?;
    // what happened begins with that it was woken, so there is more than before; and that concerns no other agent
    let count = events.len();
    prove!(from < count);
    asleep.pass(events, from + 1);
    Ok(())
}

/// A script wakes the agent of a member, where it runs and isn't suspended: one with nothing else to do takes note of its server.
pub fn turn(stage: &mut Stage, member: Member, events: &mut EventList) -> Result<(), AllocError>
    requires { HasRoom stage.old input_cost }
    ensures { OnOk result (Emits stage.old stage.new events.old events.new (turn_events stage.old member) input_cost) }
{
    let Some(process) = stage.process(member) else {
        return Ok(());
    };
    if !may_act(process) {
        return Ok(());
    }
    awaken(stage, member, events)
}

/// The agent of a member is woken, and acts. Apart from the test whether it is to be woken, which most ticks end with: so that
/// costs no room for an input.
#[inline(never)]
fn awaken(stage: &mut Stage, member: Member, events: &mut EventList) -> Result<(), AllocError>
    requires { HasRoom stage.old input_cost }
    ensures { OnOk result (Emits stage.old stage.new events.old events.new (wake_events_of stage.old member) input_cost) }
{
    let mut outputs = stage.take_outputs()?;
    stage.rouse(member, &mut outputs, events)?;
    carry_out(stage, member, NO_MESSAGE, &mut outputs, events)?;
    stage.give_back(outputs);
    Ok(())
}

/// The agent of a member starts, where it doesn't run. It removes the deadline of its watchdog, but over a live server
/// leaves it.
pub fn start_agent(
    stage: &mut Stage,
    member: Member,
    events: &mut EventList,
) -> Result<(), AllocError>
    requires { HasRoom stage.old agent_start_cost }
    ensures { OnOk result (Emits stage.old stage.new events.old events.new (agent_start_events stage.old member) agent_start_cost) }
{
    let Some(process) = stage.process(member) else {
        return Ok(());
    };
    let machine = stage.machine(member);
    let disarm = disarm_at_start(member, process, machine.as_ref());
    stage.happen_then(agent_started(member, process), disarm, events)
}
