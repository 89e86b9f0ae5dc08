//! What agents order their servers to do.
ghost use Rattle.std.specs.Prelude.{OnOk};
ghost use Rattle.cluster_model.specs.Messages.{order_events};
ghost use Rattle.world_model.specs.Emits.{Emits};
ghost use Rattle.world_model.specs.Room.{HasRoom, output_cost};

use crate::repairing::repair_log;
use crate::servers::{begin, follow, restart_server, shut_down, start_replica, stop, wipe};
use agent_model::ServerOrder;
use event_book::Member;
use event_list::EventList;
use std::alloc::AllocError;
use world_stage::Stage;

/// The server of a member does what its agent orders, where it can.
pub fn obey(
    stage: &mut Stage,
    member: Member,
    order: ServerOrder,
    events: &mut EventList,
) -> Result<(), AllocError>
    requires { HasRoom stage.old output_cost }
    ensures { OnOk result (Emits stage.old stage.new events.old events.new (order_events stage.old member order) output_cost) }
{
    match order {
        ServerOrder::Begin => begin(stage, member, events),
        ServerOrder::StartReplica { leader } => start_replica(stage, member, leader, events),
        ServerOrder::Stop { reason } => stop(stage, member, reason, events),
        ServerOrder::ShutDown => shut_down(stage, member, events),
        ServerOrder::Restart { .. } => restart_server(stage, member, events),
        ServerOrder::Wipe => wipe(stage, member, events),
        ServerOrder::Follow { leader } => follow(stage, member, leader, events),
        ServerOrder::Repair { leader, repair } => {
            repair_log(stage, member, repair, leader, events)
        }
    }
}
