//! What agents are asked by requests, and what connections bring.
ghost use Rattle.std.specs.Prelude.{OnOk, Some};
ghost use Rattle.cluster_model.specs.Inputs.{standing_of};
ghost use Rattle.cluster_model.specs.Messages.{operate_events, request_events, request_events_of, visit_events};
ghost use Rattle.cluster_model.specs.Parts.{for_some};
ghost use Rattle.world_model.specs.Emits.{Emits};
ghost use Rattle.world_model.specs.Room.{HasRoom, request_cost};

use cluster_model::{Asker, Visit};
use event_book::{EventKind, Member, Note};
use event_list::EventList;
use rest_answer::{Answer, answer, refusal_reply};
use rest_message::Verb;
use std::alloc::AllocError;
use store_keys::OperatorAction;
use world_acts::carrying::carry_out;
use world_acts::wakes::NO_MESSAGE;
use world_agents::requests::{replying, silence};
use world_parts::processes::may_act;
use world_stage::Stage;

/// What a connection brings to the agent of a member.
pub fn receive_visit(
    stage: &mut Stage,
    member: Member,
    visit: &Visit,
    events: &mut EventList,
) -> Result<(), AllocError>
    requires { HasRoom stage.old request_cost }
    ensures { OnOk result (Emits stage.old stage.new events.old events.new (visit_events stage.old visit.now member) request_cost) }
{
    match visit {
        Visit::Request(request) => make_request(
            stage,
            member,
            Asker::Connection,
            request.method,
            request.target.as_str(),
            request.body.as_slice(),
            events,
        ),
        Visit::Refusal(refusal) => {
            let reply = refusal_reply(stage.alloc(), *refusal)?;
            stage.happen(replying(member, reply), events)
        }
        Visit::Failure => stage.happen(EventKind::Note(Note::ConnectionFailed), events),
    }
}

/// A request is made of the agent of a member, which may act or not.
pub fn make_request(
    stage: &mut Stage,
    member: Member,
    asker: Asker,
    verb: Verb,
    target: &str,
    body: &[u8],
    events: &mut EventList,
) -> Result<(), AllocError>
    requires { HasRoom stage.old request_cost }
    ensures { OnOk result (Emits stage.old stage.new events.old events.new (request_events stage.old asker (record { verb = verb; target = target.now; body = body.now }) member) request_cost) }
{
    let Some(process) = stage.process(member) else {
        return Ok(());
    };
    if may_act(process) {
        ask_agent(stage, member, verb, target, body, events)
    } else {
        let silence = silence(stage.alloc(), member, asker)?;
        stage.happen(silence, events)
    }
}

/// The agent of a member, which may act, does what a request asks, or replies at once.
fn ask_agent(
    stage: &mut Stage,
    member: Member,
    verb: Verb,
    target: &str,
    body: &[u8],
    events: &mut EventList,
) -> Result<(), AllocError>
    requires { HasRoom stage.old request_cost }
    ensures { OnOk result (Emits stage.old stage.new events.old events.new (for_some (standing_of stage.old member) (request_events_of stage.old (record { verb = verb; target = target.now; body = body.now }) member)) request_cost) }
{
    let Some(machine) = stage.machine(member) else {
        return Ok(());
    };
    let Some(agent) = stage.agent(member) else {
        return Ok(());
    };
    let number = agent.next_number();
    let view = agent.view(stage.clock(), &machine);
    let answered = answer(stage.alloc(), &view, stage.routes(), verb, target, body)?;
    match answered {
        Answer::Act(asked) => operate(
            stage,
            member,
            OperatorAction {
                request: number,
                asked,
            },
            events,
        ),
        Answer::Now(reply) => stage.happen(replying(member, reply), events),
    }
}

/// The agent of a member does what an operator asks.
fn operate(
    stage: &mut Stage,
    member: Member,
    action: OperatorAction,
    events: &mut EventList,
) -> Result<(), AllocError>
    requires { HasRoom stage.old request_cost }
    ensures { OnOk result (Emits stage.old stage.new events.old events.new (operate_events stage.old member action) request_cost) }
{
    let mut outputs = stage.take_outputs()?;
    stage.obey(member, action, &mut outputs, events)?;
    carry_out(stage, member, NO_MESSAGE, &mut outputs, events)?;
    stage.give_back(outputs);
    Ok(())
}
