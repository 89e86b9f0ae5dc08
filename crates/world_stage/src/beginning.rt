//! A server that begins to accept writes.
ghost use Rattle.std.specs.Prelude.{OnOk};
ghost use Rattle.event_book.specs.Members.{server_of};
ghost use Rattle.world_model.specs.Comes.{MayCome};
ghost use Rattle.world_model.specs.Emits.{Emits};
ghost use Rattle.world_model.specs.Promoting.{beginning_at};
ghost use Rattle.world_model.specs.Room.{HasRoom, beginning_cost};

use crate::stage::Stage;
use event_book::{EventKind, Member, ServerEvent, ServerOf};
use event_list::EventList;
use std::alloc::AllocError;
use world_fields::losing::loss_of_any;

/// The server of a member begins to accept writes on this timeline, which it can. That it lacks an acknowledged commit then is told.
pub fn begin_on(
    stage: &mut Stage,
    member: Member,
    timeline: u64,
    events: &mut EventList,
) -> Result<(), AllocError>
    requires room { HasRoom stage.old beginning_cost }
    requires comes { MayCome stage.old (EventKind.Server (ServerEvent.Began (server_of member) timeline)) }
    ensures { OnOk result (Emits stage.old stage.new events.old events.new (beginning_at stage.old member timeline) beginning_cost) }
{
    let loss = loss_of_any(stage.alloc(), stage.servers(), member, stage.acknowledged())?;
    let server = ServerOf::of(member);
    stage.happen_then(
        EventKind::Server(ServerEvent::Began { server, timeline }),
        loss,
        events,
    )
}
