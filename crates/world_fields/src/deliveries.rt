//! What stands between a message and its receiver.
ghost use Rattle.std.specs.Prelude.{◌≡◌, slice_get};
ghost use Rattle.cluster_model.specs.Deliveries.{is_answer, is_stale, delivery_to, delivery_to_agent, delivery_of};

use crate::links::CutLinks;
use cluster_model::Delivery;
use event_book::{AgentProcess, Body, Link, LinkEnd, Message};

/// What stands between a message and its receiver.
pub fn delivery_of(cuts: &CutLinks, processes: &[AgentProcess], message: &Message) -> Delivery
    ensures { result ≡ delivery_of cuts.now processes.now message.now }
{
    let link = Link {
        first: message.from,
        second: message.to,
    };
    if cuts.is_cut(link) {
        Delivery::Cut
    } else {
        delivery_to(processes, message, message.to)
    }
}

fn delivery_to(processes: &[AgentProcess], message: &Message, receiver: LinkEnd) -> Delivery
    ensures { result ≡ delivery_to processes.now message.now receiver }
{
    match receiver {
        LinkEnd::Store => Delivery::Open,
        LinkEnd::Member(member) => {
            delivery_to_agent(message, processes.get(member.id.number as usize).copied())
        }
    }
}

fn delivery_to_agent(message: &Message, state: Option<AgentProcess>) -> Delivery
    ensures { result ≡ delivery_to_agent message.now state }
{
    let Some(state) = state else {
        return Delivery::Gone;
    };
    if state.suspended {
        return Delivery::Suspended;
    }
    if !state.running || is_stale(message, state) {
        Delivery::Gone
    } else {
        Delivery::Open
    }
}

/// Whether the message answers a question of another run of the agent.
fn is_stale(message: &Message, state: AgentProcess) -> bool
    ensures { result ≡ is_stale message.now state }
{
    is_answer(&message.body) && message.incarnation != state.incarnation
}

fn is_answer(body: &Body) -> bool
    ensures { result ≡ is_answer body.now }
{
    matches!(
        body,
        Body::Snapshot
            | Body::Granted { .. }
            | Body::Refused { .. }
            | Body::Answer(_)
            | Body::FailsafeAnswer { .. }
    )
}
