//! What agents did to their watchdogs, what they tell and what they note.
ghost use Rattle.std.specs.Prelude.{OnOk};
ghost use Rattle.cluster_model.specs.Commands.{kinds_of};
ghost use Rattle.cluster_model.specs.Messages.{feeding_kinds, noting_kind, telling_kind};
ghost use Rattle.cluster_model.specs.Orders.{feed_kinds};
ghost use Rattle.cluster_model.specs.Parts.{event_of, events_of};
ghost use Rattle.cluster_model.specs.State.{Cluster};
ghost use Rattle.world_model.specs.Comes.{MayCome};
ghost use Rattle.world_model.specs.Emits.{Emits};
ghost use Rattle.world_model.specs.Room.{HasRoom, feeding_cost};

use agent_model::{Feeding, Noting, Telling};
use cluster_model::HeardMessage;
use event_book::{AgentEvent, EventKind, Member, WatchdogEvent};
use event_list::EventList;
use pat_base::Ticks;
use std::alloc::AllocError;
use world_agents::requests::told_kind;
use world_fields::members::member_at;
use world_orders::order_kinds::{arming, failsafe_feeding, feeding, hold_of_request, noting_kind};
use world_stage::Stage;

/// The watchdog of a member got a deadline or lost it, on the message that was heard.
pub fn feed(
    stage: &mut Stage,
    member: Member,
    heard: HeardMessage,
    fed: Feeding,
    events: &mut EventList,
) -> Result<(), AllocError>
    requires { HasRoom stage.old feeding_cost }
    ensures { OnOk result (Emits stage.old stage.new events.old events.new (events_of stage.old (feeding_kinds member heard fed)) feeding_cost) }
{
    match fed {
        Feeding::Armed { until } => {
            let armed = arming(member, until, heard);
            tell_deadline(stage, member, heard.sent, armed, events)
        }
        Feeding::Fed { until } => {
            let fed = feeding(member, until, heard);
            tell_deadline(stage, member, heard.sent, fed, events)
        }
        Feeding::FedByFailsafe {
            until,
            members,
            sequence,
            since,
        } => {
            let fed = failsafe_feeding(member, until, members, sequence);
            tell_deadline(stage, member, since, fed, events)
        }
        Feeding::Disarmed => {
            let disarmed = WatchdogEvent::Disarmed { member };
            stage.happen_then(EventKind::Watchdog(disarmed), None, events)
        }
    }
}

/// The watchdog of a member is armed or fed; that counts from this moment.
fn tell_deadline(
    stage: &mut Stage,
    member: Member,
    since: Ticks,
    feed: EventKind,
    events: &mut EventList,
) -> Result<(), AllocError>
    requires room { HasRoom stage.old feeding_cost }
    requires comes { (cluster : Cluster) → MayCome cluster feed }
    ensures { OnOk result (Emits stage.old stage.new events.old events.new (events_of stage.old (feed_kinds member since feed)) feeding_cost) }
{
    let measured = WatchdogEvent::Measured { member, since };
    stage.happen_then(EventKind::Watchdog(measured), Some(feed), events)
}

/// The agent of a member tells an operator something, where it has something to say, that it holds on another member's request, if there
/// is that one, or that it takes the leader key though the sync key doesn't name it.
pub fn tell(
    stage: &mut Stage,
    member: Member,
    heard: HeardMessage,
    telling: Telling,
    events: &mut EventList,
) -> Result<(), AllocError>
    requires { HasRoom stage.old 1 }
    ensures { OnOk result (Emits stage.old stage.new events.old events.new (events_of stage.old (kinds_of (telling_kind stage.old member heard telling))) 1) }
{
    match telling {
        Telling::Told { told, .. } => {
            let answer = told_kind(stage.alloc(), member, stage.agent(member), told)?;
            stage.happen_if(answer, events)
        }
        Telling::HoldTaken {
            until,
            from,
            sequence,
        } => {
            let from = member_at(stage.members(), from);
            let hold = hold_of_request(member, until, heard.incarnation, sequence, from);
            stage.happen_if(hold, events)
        }
        Telling::ClaimsOutsideSync => {
            let passed = AgentEvent::Passed { agent: member };
            stage.happen_if(Some(EventKind::Agent(passed)), events)
        }
    }
}

/// The agent of a member notes something.
pub fn note(
    stage: &mut Stage,
    member: Member,
    noting: Noting,
    events: &mut EventList,
) -> Result<(), AllocError>
    requires { HasRoom stage.old 1 }
    ensures { OnOk result (Emits stage.old stage.new events.old events.new (event_of stage.old (noting_kind stage.old.facts.members member noting)) 1) }
{
    let noted = noting_kind(stage.members(), member, noting);
    stage.happen(noted, events)
}
