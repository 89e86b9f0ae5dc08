//! What patronictl does with a cluster.
ghost use Rattle.std.specs.Prelude.{◌≡◌, OnOk, IfOk};
ghost use Rattle.rest_message.specs.Requests.{request_text};
ghost use Rattle.patronictl.specs.Answers.{answer_told};
ghost use Rattle.cluster_model.specs.Next.{asking_events, ctl_events, ctl_told_at};
ghost use Rattle.world_model.specs.Emits.{Emits};
ghost use Rattle.world_model.specs.Room.{HasRoom, request_cost};

use crate::requests::make_request;
use cluster_model::Asker;
use event_list::EventList;
use pat_base::MemberId;
use patronictl::{CtlAnswer, ctl_answer};
use rest_message::Request;
use std::alloc::AllocError;
use world_fields::members::member_at;
use world_stage::Stage;

/// An operator types these words behind patronictl: what it prints is written down, and its request is made.
pub fn take_words(stage: &mut Stage, said: &str, events: &mut EventList) -> Result<(), AllocError>
    requires { HasRoom stage.old request_cost }
    ensures { OnOk result (Emits stage.old stage.new events.old events.new (ctl_events stage.old (ctl_told_at stage.old said.now)) request_cost) }
{
    match told_at(stage, said)? {
        CtlAnswer::Prints(lines) => stage.print(lines, events),
        CtlAnswer::Asks { member, request } => ask(stage, member, &request, events),
    }
}

/// What patronictl does for these words at this moment. It fails only for want of memory.
fn told_at(stage: &Stage, said: &str) -> Result<CtlAnswer, AllocError>
    ensures { IfOk result (λ answer. answer_told answer ≡ ctl_told_at stage.now said.now) }
{
    let seen = stage.snapshot_now()?;
    ctl_answer(stage.alloc(), &seen, said)
}

/// A request is made of the agent of a member as a line of a script makes it. Of a member that isn't declared nothing comes.
fn ask(
    stage: &mut Stage,
    id: MemberId,
    request: &Request,
    events: &mut EventList,
) -> Result<(), AllocError>
    requires { HasRoom stage.old request_cost }
    ensures { OnOk result (Emits stage.old stage.new events.old events.new (asking_events stage.old id (request_text request.now)) request_cost) }
{
    let Some(member) = member_at(stage.members(), id) else {
        return Ok(());
    };
    make_request(
        stage,
        member,
        Asker::Line,
        request.method,
        request.target.as_str(),
        request.body.as_slice(),
        events,
    )
}
