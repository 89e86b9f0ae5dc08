//! What is answered to a request.
ghost use Rattle.std.specs.Prelude.{◌≡◌, IfOk, option_copied};
ghost use Rattle.rest_answer.specs.Answers.{answered, answer_to, answer_by, health_reply, decided};
ghost use Rattle.rest_answer.specs.Decisions.{change_on};
ghost use Rattle.rest_message.specs.Replies.{reply_text};

use crate::Answer;
use crate::decisions::change_on;
use crate::pages::page_reply;
use crate::replies::{json_reply, status_reply, text_reply};
use crate::status::METHOD_NOT_ALLOWED;
use cluster_view::AgentView;
use operator_answers::NOT_FOUND;
use operator_keys::CheckFault;
use rest_facts::health_of_view;
use rest_health::Endpoint;
use rest_message::{Reply, Verb, lag_of};
use rest_pages::patroni_text;
use rest_paths::{Ask, Change, Routes};
use std::alloc::{AllocError, Global};

/// What an agent that shows this answers to a request with this method, target and content, or what it is to do for it (Patroni
/// documentation, "Patroni REST API"). An unknown path is answered 404, and a known one with another method 405, both with no
/// content. It fails only for want of memory.
pub fn answer(
    alloc: Global,
    view: &AgentView<'_>,
    routes: &Routes,
    verb: Verb,
    target: &str,
    body: &[u8],
) -> Result<Answer, AllocError>
    ensures { IfOk result (λ answer. answered answer ≡ answer_to view.now (option_copied view.now.seen) (record { verb = verb; target = target.now; body = body.now })) }
{
    let ask = routes.ask(verb, target);
    answer_by(alloc, view, lag_of(target), body, ask)
}

/// What is answered to this, by the parameter `lag` and the content that the request has.
fn answer_by(
    alloc: Global,
    view: &AgentView<'_>,
    lag: Option<&[u8]>,
    body: &[u8],
    ask: Ask,
) -> Result<Answer, AllocError>
    ensures { IfOk result (λ answer. answered answer ≡ answer_by view.now (option_copied view.now.seen) (option_copied lag.entry) body.now ask) }
{
    match ask {
        Ask::NotFound => Ok(Answer::Now(status_reply(alloc, NOT_FOUND))),
        Ask::NotAllowed => Ok(Answer::Now(status_reply(alloc, METHOD_NOT_ALLOWED))),
        Ask::Health {
            endpoint,
            body: told,
        } => Ok(Answer::Now(health_reply(alloc, view, endpoint, lag, told)?)),
        Ask::Page(page) => Ok(Answer::Now(page_reply(alloc, view, page)?)),
        Ask::Change(change) => decided(alloc, view, change, body),
    }
}

/// What a health check answers: its status, and with a body what `/patroni` tells.
fn health_reply(
    alloc: Global,
    view: &AgentView<'_>,
    endpoint: Endpoint,
    lag: Option<&[u8]>,
    told: bool,
) -> Result<Reply, AllocError>
    ensures { IfOk result (λ reply. reply_text reply ≡ health_reply view.now (option_copied view.now.seen) endpoint (option_copied lag.entry) told) }
{
    let status = health_of_view(view, endpoint, lag);
    if told {
        return Ok(json_reply(status, patroni_text(alloc, view)?));
    }
    Ok(status_reply(alloc, status))
}

/// What comes of a request to change something: the agent is to do it, or it is refused.
fn decided(
    alloc: Global,
    view: &AgentView<'_>,
    change: Change,
    body: &[u8],
) -> Result<Answer, AllocError>
    ensures { IfOk result (λ answer. answered answer ≡ decided (change_on view.now (option_copied view.now.seen) change body.now)) }
{
    match change_on(alloc, view, change, body) {
        Ok(request) => Ok(Answer::Act(request)),
        Err(CheckFault::Refused(refused)) => {
            let reply = text_reply(alloc, refused.status, refused.text)?;
            Ok(Answer::Now(reply))
        }
        Err(CheckFault::Memory) => Err(AllocError),
    }
}
