//! What agents do, carried out.
ghost use Rattle.std.specs.Prelude.{ℕ, ◌≡◌, ◌≤◌, [], All, None, OnOk, length, slice_get};
ghost use Rattle.event_book.specs.declared.link.LinkEnd.{LinkEnd};
ghost use Rattle.event_book.specs.Flight.{grant_for};
ghost use Rattle.agent_model.specs.declared.output.Target.TheVariants as targets;
ghost use Rattle.agent_model.specs.Outputs.{most_outputs};
ghost use Rattle.cluster_model.specs.Messages.{outgoing_events, output_events, receiver_of, replying_events, sending_events};
ghost use Rattle.cluster_model.specs.Parts.{each};
ghost use Rattle.world_model.specs.Emits.{Emits};
ghost use Rattle.world_model.specs.Room.{HasRoom, output_cost, outputs_cost, sending_cost};
ghost use Rattle.world_model.specs.Short.{IsShort};
ghost use Rattle.agent_model.specs.Asked.{AsksShortly, IsAsked, SendsShortly};

use crate::obeying::obey;
use crate::servers::require;
use crate::telling::{feed, note, tell};
use agent_model::{Inquiry, Outgoing, Output, Target};
use cluster_model::HeardMessage;
use event_book::{Body, LinkEnd, Member, Message};
use event_list::EventList;
use pat_base::MemberId;
use std::alloc::AllocError;
use world_agents::Outputs;
use world_orders::order_kinds::receiver_of;
use world_stage::Stage;

/// What the agent of a member did on the message that it heard is carried out, in its order. Then the list is empty.
pub fn carry_out(
    stage: &mut Stage,
    member: Member,
    heard: HeardMessage,
    outputs: &mut Outputs,
    events: &mut EventList,
) -> Result<(), AllocError>
    requires room { HasRoom stage.old outputs_cost }
    requires few { length outputs.old.outputs ≤ most_outputs }
    requires short { All AsksShortly outputs.old.outputs }
    ensures emits { OnOk result (Emits stage.old stage.new events.old events.new (each (output_events member heard) stage.old outputs.old.outputs) outputs_cost) }
    ensures none { OnOk result (outputs.new.outputs ≡ []) }
{
    while let Some(output) = outputs.take() {
        carry(stage, member, heard, output, events)?;
    }
    Ok(())
}

/// One thing that the agent of a member did is carried out.
fn carry(
    stage: &mut Stage,
    member: Member,
    heard: HeardMessage,
    output: Output,
    events: &mut EventList,
) -> Result<(), AllocError>
    requires room { HasRoom stage.old output_cost }
    requires short { AsksShortly output }
    ensures { OnOk result (Emits stage.old stage.new events.old events.new (output_events member heard stage.old output) output_cost) }
{
    match output {
        Output::Message(written) => send(stage, member, written, events),
        Output::Server(order) => obey(stage, member, order, events),
        Output::Watchdog(fed) => feed(stage, member, heard, fed, events),
        Output::Require { required } => require(stage, member, required, events),
        Output::Tell(telling) => tell(stage, member, heard, telling, events),
        Output::Note(noting) => note(stage, member, noting, events),
    }
}

/// What the agent of a member writes to another end of a link goes out.
fn send(
    stage: &mut Stage,
    member: Member,
    written: Outgoing,
    events: &mut EventList,
) -> Result<(), AllocError>
    requires room { HasRoom stage.old sending_cost }
    requires short { SendsShortly written }
    ensures { OnOk result (Emits stage.old stage.new events.old events.new (outgoing_events stage.old member written) sending_cost) }
{
    match written {
        Outgoing::Send { to, sequence, body } => write(stage, member, to, sequence, body, events),
        Outgoing::Answer {
            to,
            incarnation,
            sequence,
            answer,
        } => reply(
            stage,
            member,
            to,
            incarnation,
            sequence,
            Body::Answer(answer),
            events,
        ),
        Outgoing::FailsafeAnswer {
            to,
            incarnation,
            sequence,
            accepted,
        } => reply(
            stage,
            member,
            to,
            incarnation,
            sequence,
            Body::FailsafeAnswer { accepted },
            events,
        ),
    }
}

/// The agent of a member sends this, if there is a receiver.
fn write(
    stage: &mut Stage,
    member: Member,
    to: Target,
    sequence: u64,
    body: Inquiry,
    events: &mut EventList,
) -> Result<(), AllocError>
    requires room { HasRoom stage.old sending_cost }
    requires short { IsAsked body }
    ensures { OnOk result (Emits stage.old stage.new events.old events.new (sending_events stage.old member (slice_get stage.old.facts.processes member.id.number) (receiver_of stage.old.facts.members to) sequence body) sending_cost) }
{
    let Some(to) = receiver_of(stage.members(), to) else {
        return Ok(());
    };
    let Some(process) = stage.process(member) else {
        return Ok(());
    };
    let message = Message {
        from: LinkEnd::Member(member),
        to,
        incarnation: process.incarnation,
        sequence,
        body: body.into_body(stage.alloc())?,
    };
    stage.send(message, None, events)
}

/// The agent of a member answers another one, if there is that one, in the run in which it asked.
fn reply(
    stage: &mut Stage,
    member: Member,
    to: MemberId,
    incarnation: u64,
    sequence: u64,
    body: Body,
    events: &mut EventList,
) -> Result<(), AllocError>
    requires room { HasRoom stage.old sending_cost }
    requires short { IsShort body }
    requires untold { (to : LinkEnd) (revision : ℕ) → grant_for body to revision ≡ None }
    ensures { OnOk result (Emits stage.old stage.new events.old events.new (replying_events stage.old member (receiver_of stage.old.facts.members (targets.Member to)) incarnation sequence body) sending_cost) }
{
    let Some(to) = receiver_of(stage.members(), Target::Member(to)) else {
        return Ok(());
    };
    let message = Message {
        from: LinkEnd::Member(member),
        to,
        incarnation,
        sequence,
        body,
    };
    stage.send(message, None, events)
}
