//! Ticks: what they bring beside the clock.
ghost use Rattle.std.specs.Prelude.{◌≡◌, ◌+◌, ◌*◌, true, OnOk, IfOk};
ghost use Rattle.event_list.specs.Listed.{◌+++◌};
ghost use Rattle.cluster_model.specs.Parts.{each, events_at};
ghost use Rattle.cluster_model.specs.Ticking.{completion_events, expiry_of, expiries_of, reset_events, tick_events};
ghost use Rattle.world_model.specs.Emits.{Emits};
ghost use Rattle.world_model.specs.Idle.{NothingEnds, at_moment};
ghost use Rattle.world_model.specs.Room.{HasRoom, beginning_cost, completions_cost, resets_cost, tick_cost};

use crate::idling::ends_from;
use cluster_model::Completion;
use event_book::{EventKind, Member, ServerEvent, ServerOf, StoreEvent};
use event_list::EventList;
use pat_base::Ticks;
use std::alloc::AllocError;
use store_keys::Key;
use world_fields::watchdogs::reset_of;
use world_fields::writing::write_down;
use world_orders::order_kinds::declared_member;
use world_orders::server_commands::completion_of;
use world_stage::{Stage, begin_on};

/// The clock grows by one. Where nothing ends with that, nothing else happens; else see `end_due`. Answers whether nothing else happened.
pub fn tick(stage: &mut Stage, events: &mut EventList) -> Result<bool, AllocError>
    requires { HasRoom stage.old tick_cost }
    ensures emits { OnOk result (Emits stage.old stage.new events.old events.new (tick_events stage.old) tick_cost) }
    ensures alone { IfOk result (λ alone. alone ≡ true → stage.new ≡ at_moment stage.old (stage.old.facts.clock + 1)) }
{
    if stage.clock().0 + 1 < ends_from(stage).0 {
        bare_tick(stage, events)?;
        return Ok(true);
    }
    end_due(stage, events)?;
    Ok(false)
}

/// The clock grows by one, and nothing ends with that.
pub fn bare_tick(stage: &mut Stage, events: &mut EventList) -> Result<(), AllocError>
    requires room { HasRoom stage.old tick_cost }
    requires ends { NothingEnds (stage.old.facts.clock + 1) stage.old }
    ensures emits { OnOk result (Emits stage.old stage.new events.old events.new (tick_events stage.old) tick_cost) }
    ensures clock { stage.new ≡ at_moment stage.old (stage.old.facts.clock + 1) }
{
    stage.pass(1);
    write_down(events, stage.clock(), EventKind::Tick)
}

/// The clock grows by one, starts and stops of servers that don't write are complete, and the keys that have expired are
/// dropped. The machines whose watchdogs are due are reset, what expired is told, and starts and stops of
/// primaries are complete.
fn end_due(stage: &mut Stage, events: &mut EventList) -> Result<(), AllocError>
    requires { HasRoom stage.old tick_cost }
    ensures { OnOk result (Emits stage.old stage.new events.old events.new (tick_events stage.old) tick_cost) }
{
    let now = Ticks(stage.clock().0 + 1);
    let expired = stage.store().expired(now)?;
    let holder = stage.store().expired_holder(now);
    let holder = declared_member(stage.members(), holder);
    stage.happen(EventKind::Tick, events)?;
    resets(stage, events)?;
    tell_expiries(events, stage.clock(), holder, &expired)?;
    completions(stage, events)
}

/// The machines whose watchdogs are due are reset, in script order.
fn resets(stage: &mut Stage, events: &mut EventList) -> Result<(), AllocError>
    requires { HasRoom stage.old resets_cost }
    ensures { OnOk result (Emits stage.old stage.new events.old events.new (each reset_events stage.old stage.old.facts.members) resets_cost) }
{
    for place in 0..stage.member_count() {
        let member = stage.member(place);
        reset(stage, member, events)?;
    }
    Ok(())
}

/// The machine of a member is reset, where its watchdog is due.
fn reset(stage: &mut Stage, member: Member, events: &mut EventList) -> Result<(), AllocError>
    requires { HasRoom stage.old 1 }
    ensures { OnOk result (Emits stage.old stage.new events.old events.new (reset_events stage.old member) 1) }
{
    let reset = reset_of(stage.deadlines(), stage.clock(), member);
    stage.happen_if(reset, events)
}

/// The starts and stops of primaries whose moment has come are complete, in script order.
fn completions(stage: &mut Stage, events: &mut EventList) -> Result<(), AllocError>
    requires { HasRoom stage.old completions_cost }
    ensures { OnOk result (Emits stage.old stage.new events.old events.new (each completion_events stage.old stage.old.facts.members) completions_cost) }
{
    for place in 0..stage.member_count() {
        let member = stage.member(place);
        complete(stage, member, events)?;
    }
    Ok(())
}

/// The start or the stop of the server of a member as a primary is complete, where its moment has come.
fn complete(stage: &mut Stage, member: Member, events: &mut EventList) -> Result<(), AllocError>
    requires { HasRoom stage.old beginning_cost }
    ensures { OnOk result (Emits stage.old stage.new events.old events.new (completion_events stage.old member) beginning_cost) }
{
    match completion_of(stage.servers(), stage.clock(), member) {
        None => Ok(()),
        Some(Completion::Begins { timeline }) => begin_on(stage, member, timeline, events),
        Some(Completion::Ends) => {
            let server = ServerOf::of(member);
            stage.happen(EventKind::Server(ServerEvent::Ended { server }), events)
        }
    }
}

/// Writes down which keys expired, and who the holder of the leader key was if that is one of them.
fn tell_expiries(
    events: &mut EventList,
    tick: Ticks,
    holder: Option<Member>,
    keys: &[Key],
) -> Result<(), AllocError>
    ensures { OnOk result (events.new ≡ events.old +++ events_at tick (expiries_of holder keys.now)) }
{
    for key in keys {
        tell_expiry(events, tick, holder, *key)?;
    }
    Ok(())
}

fn tell_expiry(
    events: &mut EventList,
    tick: Ticks,
    holder: Option<Member>,
    key: Key,
) -> Result<(), AllocError>
    ensures { OnOk result (events.new ≡ events.old +++ events_at tick (expiry_of holder key)) }
{
    match (key, holder) {
        (Key::Leader, None) => Ok(()),
        (Key::Leader, Some(holder)) => write_down(
            events,
            tick,
            EventKind::Store(StoreEvent::LeaderExpired { holder }),
        ),
        (key, _) => write_down(events, tick, EventKind::Store(StoreEvent::Expired { key })),
    }
}
