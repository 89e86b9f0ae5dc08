//! What replicas receive and confirm, in a tick and by a command.
ghost use Rattle.std.specs.Prelude.{◌≡◌, OnOk, IfOk, slice_get};
ghost use Rattle.cluster_model.specs.Next.{receive_events_of, receive_events_at_most};
ghost use Rattle.cluster_model.specs.Parts.{each};
ghost use Rattle.world_model.specs.Room.{HasRoom, receiving_cost, streaming_cost};
ghost use Rattle.world_model.specs.Emits.{Emits};
ghost use Rattle.world_model.specs.Idle.{IfCaughtUp};

use event_book::Member;
use event_list::EventList;
use std::alloc::AllocError;
use world_fields::machines::item_at;
use world_parts::sources::source_of;
use world_stage::Stage;

/// The servers receive all that they lack, in script order, but for those that are frozen; nothing is done where all are known to have
/// caught up. Answers whether they had.
pub fn all_receive(
    stage: &mut Stage,
    caught_up: bool,
    events: &mut EventList,
) -> Result<bool, AllocError>
    requires room { HasRoom stage.old receiving_cost }
    requires caught_up { IfCaughtUp caught_up stage.old }
    ensures emits { OnOk result (Emits stage.old stage.new events.old events.new (each receive_events_of stage.old stage.old.facts.members) receiving_cost) }
    ensures caught_up { IfOk result (λ known. IfCaughtUp known stage.new) }
{
    if caught_up {
        return Ok(true);
    }
    let before = events.len();
    each_receives(stage, events)?;
    Ok(events.len() == before)
}

/// The servers receive all that they lack, in script order, but for those that are frozen.
fn each_receives(stage: &mut Stage, events: &mut EventList) -> Result<(), AllocError>
    requires { HasRoom stage.old receiving_cost }
    ensures { OnOk result (Emits stage.old stage.new events.old events.new (each receive_events_of stage.old stage.old.facts.members) receiving_cost) }
{
    for place in 0..stage.member_count() {
        let member = stage.member(place);
        receive_all(stage, member, events)?;
    }
    Ok(())
}

/// The server of a member receives all that it lacks, unless it is frozen.
fn receive_all(stage: &mut Stage, member: Member, events: &mut EventList) -> Result<(), AllocError>
    requires { HasRoom stage.old streaming_cost }
    ensures { OnOk result (Emits stage.old stage.new events.old events.new (receive_events_of stage.old member) streaming_cost) }
{
    match frozen(stage, member) {
        None | Some(true) => Ok(()),
        Some(false) => receive(stage, member, u64::MAX, events),
    }
}

/// Whether the server of a member is frozen.
fn frozen(stage: &Stage, member: Member) -> Option<bool>
    ensures { result ≡ slice_get stage.now.facts.frozen member.id.number }
{
    item_at(stage.frozen(), member.id.number as usize)
}

/// The server of a member receives at most so many entries and confirms what it has, or finds that its log diverged.
pub fn receive(
    stage: &mut Stage,
    member: Member,
    most: u64,
    events: &mut EventList,
) -> Result<(), AllocError>
    requires { HasRoom stage.old streaming_cost }
    ensures { OnOk result (Emits stage.old stage.new events.old events.new (receive_events_at_most stage.old most member) streaming_cost) }
{
    match source_of(stage.members(), stage.servers(), stage.cuts(), member) {
        None => Ok(()),
        Some(from) => stage.receive_from(member, from, most, events),
    }
}
