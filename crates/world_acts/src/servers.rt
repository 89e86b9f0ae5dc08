//! What commands and agents do to servers.
ghost use Rattle.std.specs.Prelude.{◌≡◌, OnOk, Some, option_map, slice_get};
ghost use Rattle.pat_base.specs.declared.server_state.State.TheVariants as states;
ghost use Rattle.cluster_model.specs.Messages.{begin_events, replica_start_events, server_order_events, server_restart_events, stop_events};
ghost use Rattle.cluster_model.specs.Next.{promote_events};
ghost use Rattle.cluster_model.specs.Orders.{declared_member, require_of, server_at, stop_of, upstream_of, wipe_of};
ghost use Rattle.world_model.specs.Emits.{Emits};
ghost use Rattle.world_model.specs.Room.{HasRoom, beginning_cost, promotion_cost, replica_start_cost, server_restart_cost, stopping_cost};

use cluster_model::Beginning;
use event_book::{EventKind, Member, Note, Reason, ServerEvent, ServerOf};
use event_list::EventList;
use pat_base::{MemberId, Required, State};
use std::alloc::AllocError;
use world_fields::members::member_at;
use world_orders::order_kinds::{
    declared_member, following_of, require_of, stop_of, upstream_of, wipe_of,
};
use world_orders::server_commands::{beginning_of, promoted_timeline, restart_of};
use world_stage::{Stage, begin_on};

/// The server of a member is promoted by its operator, where it is a replica, and begins.
pub fn promote(stage: &mut Stage, member: Member, events: &mut EventList) -> Result<(), AllocError>
    requires { HasRoom stage.old promotion_cost }
    ensures { OnOk result (Emits stage.old stage.new events.old events.new (promote_events stage.old member) promotion_cost) }
{
    let Some(timeline) = promoted_timeline(stage.servers(), member) else {
        return Ok(());
    };
    let server = ServerOf::of(member);
    stage.happen(EventKind::Server(ServerEvent::Promoted { server }), events)?;
    begin_on(stage, member, timeline, events)
}

/// The server of a member begins to accept writes by the order of its agent, at once or when its start is complete, where it can.
pub fn begin(stage: &mut Stage, member: Member, events: &mut EventList) -> Result<(), AllocError>
    requires { HasRoom stage.old beginning_cost }
    ensures { OnOk result (Emits stage.old stage.new events.old events.new (begin_events stage.old member) beginning_cost) }
{
    match beginning_of(stage.servers(), member) {
        None => Ok(()),
        Some(Beginning::AtOnce { timeline }) => begin_on(stage, member, timeline, events),
        Some(Beginning::WithItsStart) => {
            let server = ServerOf::of(member);
            stage.happen(
                EventKind::Server(ServerEvent::StartsAsPrimary { server }),
                events,
            )
        }
    }
}

/// The server of a member starts as a replica of a leader's, or of none, where it is down.
pub fn start_replica(
    stage: &mut Stage,
    member: Member,
    leader: Option<MemberId>,
    events: &mut EventList,
) -> Result<(), AllocError>
    requires { HasRoom stage.old replica_start_cost }
    ensures { OnOk result (Emits stage.old stage.new events.old events.new (replica_start_events stage.old member (declared_member stage.old.facts.members leader)) replica_start_cost) }
{
    let Some(state) = server_state(stage, member) else {
        return Ok(());
    };
    if !state.is_down() {
        return Ok(());
    }
    let server = ServerOf::of(member);
    let leader = declared_member(stage.members(), leader);
    stage.happen_then(
        EventKind::Server(ServerEvent::StartsAsReplica { server }),
        following_of(member, leader),
        events,
    )
}

/// The agent of a member ends its server for this reason: one that runs or starts shuts down.
pub fn stop(
    stage: &mut Stage,
    member: Member,
    reason: Reason,
    events: &mut EventList,
) -> Result<(), AllocError>
    requires { HasRoom stage.old stopping_cost }
    ensures { OnOk result (Emits stage.old stage.new events.old events.new (stop_events stage.old member reason) stopping_cost) }
{
    if server_state(stage, member).is_none() {
        return Ok(());
    }
    let stop = stop_of(stage.servers(), member);
    stage.happen_then(
        EventKind::Note(Note::EndsServer { member, reason }),
        stop,
        events,
    )
}

/// The server of a member shuts down by the order of its agent, where it runs or starts.
pub fn shut_down(
    stage: &mut Stage,
    member: Member,
    events: &mut EventList,
) -> Result<(), AllocError>
    requires { HasRoom stage.old 1 }
    ensures { OnOk result (Emits stage.old stage.new events.old events.new (server_order_events stage.old member (stop_of member)) 1) }
{
    let stop = stop_of(stage.servers(), member);
    stage.happen_if(stop, events)
}

/// The server of a member is wiped by the order of its agent, where it isn't live and doesn't wait for a copy already.
pub fn wipe(stage: &mut Stage, member: Member, events: &mut EventList) -> Result<(), AllocError>
    requires { HasRoom stage.old 1 }
    ensures { OnOk result (Emits stage.old stage.new events.old events.new (server_order_events stage.old member (wipe_of member)) 1) }
{
    let wipe = wipe_of(stage.servers(), member);
    stage.happen_if(wipe, events)
}

/// The server of a member follows that of this leader by the order of its agent, where it is a replica.
pub fn follow(
    stage: &mut Stage,
    member: Member,
    leader: MemberId,
    events: &mut EventList,
) -> Result<(), AllocError>
    requires { HasRoom stage.old 1 }
    ensures { OnOk result (Emits stage.old stage.new events.old events.new (server_order_events stage.old member (upstream_of member (slice_get stage.old.facts.members leader.number))) 1) }
{
    let leader = member_at(stage.members(), leader);
    let upstream = upstream_of(stage.servers(), member, leader);
    stage.happen_if(upstream, events)
}

/// Commits of a member's server wait for these by the order of its agent, where that is a change.
pub fn require(
    stage: &mut Stage,
    member: Member,
    required: Required,
    events: &mut EventList,
) -> Result<(), AllocError>
    requires { HasRoom stage.old 1 }
    ensures { OnOk result (Emits stage.old stage.new events.old events.new (server_order_events stage.old member (require_of stage.old.facts.members member required)) 1) }
{
    let change = require_of(
        stage.alloc(),
        stage.members(),
        stage.servers(),
        member,
        required,
    )?;
    stage.happen_if(change, events)
}

/// The server of a member starts again in its role by the order of its agent, where it runs.
pub fn restart_server(
    stage: &mut Stage,
    member: Member,
    events: &mut EventList,
) -> Result<(), AllocError>
    requires { HasRoom stage.old server_restart_cost }
    ensures { OnOk result (Emits stage.old stage.new events.old events.new (server_restart_events stage.old member) server_restart_cost) }
{
    match server_state(stage, member) {
        Some(State::Primary) => restart_primary(stage, member, events),
        Some(State::Replica) => {
            let server = ServerOf::of(member);
            stage.happen(
                EventKind::Server(ServerEvent::StartsAsReplica { server }),
                events,
            )
        }
        _ => Ok(()),
    }
}

/// The server of a member, a primary, ends and starts again as one, at once or when its start is complete. It ends however long its
/// stops take: so both are done at once.
fn restart_primary(
    stage: &mut Stage,
    member: Member,
    events: &mut EventList,
) -> Result<(), AllocError>
    requires room { HasRoom stage.old server_restart_cost }
    requires primary { option_map (λ s. s.state) (server_at stage.old member) ≡ Some states.Primary }
    ensures { OnOk result (Emits stage.old stage.new events.old events.new (server_restart_events stage.old member) server_restart_cost) }
{
    let Some(beginning) = restart_of(stage.servers(), member) else {
        return Ok(());
    };
    match beginning {
        Beginning::AtOnce { timeline } => stage.restart_at_once(member, timeline, events),
        Beginning::WithItsStart => stage.restart_slowly(member, events),
    }
}

/// The state of a member's server.
fn server_state(stage: &Stage, member: Member) -> Option<State>
    ensures { result ≡ option_map (λ s. s.state) (server_at stage.now member) }
{
    let server = stage.servers().get(member.id.number as usize)?;
    Some(server.state())
}
