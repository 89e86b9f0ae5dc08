//! What agents answer to requests.
ghost use Rattle.std.specs.Prelude.{◌≡◌, IfOk, IfSome, option_copied};
ghost use Rattle.rest_message.specs.Replies.{reply_text};
ghost use Rattle.event_book.specs.declared.event.EventKind.TheVariants as kinds;
ghost use Rattle.cluster_model.specs.Requests.{replying, config_text_of, silence, told_kind};
ghost use Rattle.cluster_model.specs.State.{Cluster};
ghost use Rattle.world_model.specs.Comes.{MayCome};

use agent_model::Told;
use cluster_model::Asker;
use event_book::{Bytes, EventKind, Member, Note};
use ha_loop::Agent;
use operator_answers::OK;
use operator_keys::configuration_in;
use rest_answer::{Refusal, json_reply, refusal_reply, text_reply};
use rest_message::Reply;
use std::alloc::{AllocError, Global};

/// The agent of a member replies so.
pub fn replying(member: Member, reply: Reply) -> EventKind
    ensures kind { result ≡ replying member (reply_text reply) }
    ensures comes { (cluster : Cluster) → MayCome cluster result }
{
    EventKind::Note(Note::Answered {
        agent: member,
        status: reply.status,
        json: reply.json,
        body: Bytes::new(reply.body),
    })
}

/// What comes of a request to the agent of a member that doesn't run or is suspended. It fails only for want of memory.
pub fn silence(alloc: Global, member: Member, asker: Asker) -> Result<EventKind, AllocError>
    ensures kind { IfOk result (λ kind. kind ≡ kinds.Note (silence asker member)) }
    ensures comes { IfOk result (λ kind. (cluster : Cluster) → MayCome cluster kind) }
{
    match asker {
        Asker::Line => Ok(EventKind::Note(Note::NoAnswer { agent: member })),
        Asker::Connection => {
            let reply = refusal_reply(alloc, Refusal::NoAgent)?;
            Ok(replying(member, reply))
        }
    }
}

/// What the agent of a member answers an operator. It fails only for want of memory.
pub fn told_kind(
    alloc: Global,
    member: Member,
    agent: Option<&Agent>,
    told: Told,
) -> Result<Option<EventKind>, AllocError>
    ensures kind { IfOk result (λ kind. kind ≡ told_kind member (option_copied agent.entry) told) }
    ensures comes { IfOk result (λ kind. (cluster : Cluster) → IfSome kind (MayCome cluster)) }
{
    match told {
        Told::Text { status, text } => {
            let reply = text_reply(alloc, status, text)?;
            Ok(Some(replying(member, reply)))
        }
        Told::Written => {
            let Some(text) = config_text_of(agent) else {
                return Ok(None);
            };
            let reply = json_reply(OK, String::from_str(alloc, text)?);
            Ok(Some(replying(member, reply)))
        }
    }
}

/// The text of the configuration that an agent read last, if there is an agent that read one.
fn config_text_of(agent: Option<&Agent>) -> Option<&str>
    ensures { option_copied result ≡ config_text_of (option_copied agent.entry) }
{
    let config = configuration_in(agent?.seen()?)?;
    Some(config.as_str())
}
