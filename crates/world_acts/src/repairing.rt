//! The log of a server is repaired by that of its leader's.
ghost use Rattle.std.specs.Prelude.{OnOk, Some, slice_get};
ghost use Rattle.cluster_model.specs.Commands.{kinds_of};
ghost use Rattle.cluster_model.specs.Messages.{repair_events};
ghost use Rattle.cluster_model.specs.Orders.{repair_by};
ghost use Rattle.cluster_model.specs.Parts.{events_of};
ghost use Rattle.world_model.specs.Emits.{Emits};
ghost use Rattle.world_model.specs.Room.{HasRoom};

use agent_model::Repair;
use event_book::Member;
use event_list::EventList;
use pat_base::MemberId;
use std::alloc::AllocError;
use world_fields::members::member_at;
use world_parts::sources::link_of_members;
use world_stage::Stage;

/// The log of a member's server is repaired by that of this leader's, if there is such a member: where that accepts writes, the
/// link between the two is joined, and the server may be rewound, or waits for a copy.
pub fn repair_log(
    stage: &mut Stage,
    member: Member,
    repair: Repair,
    leader: MemberId,
    events: &mut EventList,
) -> Result<(), AllocError>
    requires { HasRoom stage.old 1 }
    ensures { OnOk result (Emits stage.old stage.new events.old events.new (repair_events stage.old member repair (slice_get stage.old.facts.members leader.number)) 1) }
{
    let Some(leader) = member_at(stage.members(), leader) else {
        return Ok(());
    };
    if stage.cuts().is_cut(link_of_members(member, leader)) {
        return Ok(());
    }
    repair_by(stage, member, repair, leader, events)
}

/// The log of a member's server is repaired by that of this leader's, over a joined link: where that accepts writes, and the
/// server may be rewound, or waits for a copy.
fn repair_by(
    stage: &mut Stage,
    member: Member,
    repair: Repair,
    leader: Member,
    events: &mut EventList,
) -> Result<(), AllocError>
    requires { HasRoom stage.old 1 }
    ensures { OnOk result (Emits stage.old stage.new events.old events.new (events_of stage.old (kinds_of (repair_by stage.old.facts.servers member repair leader))) 1) }
{
    match repair {
        Repair::Rewind => stage.rewind(member, leader, events),
        Repair::Clone => stage.copy(member, leader, events),
    }
}
