//! The pages of an agent.
ghost use Rattle.std.specs.Prelude.{◌≡◌, IfOk, option_copied};
ghost use Rattle.rest_answer.specs.Pages.{page_reply, where_seen, no_store_answer, cluster_reply, history_reply, config_reply, failsafe_reply};
ghost use Rattle.rest_message.specs.Replies.{reply_text};

use crate::replies::{json_reply, status_reply, text_reply};
use cluster_view::{AgentView, Snapshot};
use operator_answers::{BAD_GATEWAY, OK, SERVICE_UNAVAILABLE, Text};
use rest_message::Reply;
use rest_pages::{cluster_text, config_text, failsafe_text, history_text, patroni_text};
use rest_paths::Page;
use std::alloc::{AllocError, Global};

/// What a page answers.
pub(crate) fn page_reply(
    alloc: Global,
    view: &AgentView<'_>,
    page: Page,
) -> Result<Reply, AllocError>
    ensures { IfOk result (λ reply. reply_text reply ≡ page_reply page view.now (option_copied view.now.seen)) }
{
    match page {
        Page::Patroni => Ok(json_reply(OK, patroni_text(alloc, view)?)),
        Page::Cluster => cluster_page(alloc, view.seen),
        Page::History => history_page(alloc, view.seen),
        Page::Config => config_page(alloc, view.seen),
        Page::Failsafe => failsafe_page(alloc, view.seen),
    }
}

fn cluster_page(alloc: Global, seen: Option<&Snapshot>) -> Result<Reply, AllocError>
    ensures { IfOk result (λ reply. reply_text reply ≡ where_seen cluster_reply (option_copied seen.entry)) }
{
    match seen {
        None => no_store_answer(alloc),
        Some(seen) => Ok(json_reply(OK, cluster_text(alloc, seen)?)),
    }
}

fn history_page(alloc: Global, seen: Option<&Snapshot>) -> Result<Reply, AllocError>
    ensures { IfOk result (λ reply. reply_text reply ≡ where_seen history_reply (option_copied seen.entry)) }
{
    match seen {
        None => no_store_answer(alloc),
        Some(seen) => Ok(json_reply(OK, history_text(alloc, seen)?)),
    }
}

fn config_page(alloc: Global, seen: Option<&Snapshot>) -> Result<Reply, AllocError>
    ensures { IfOk result (λ reply. reply_text reply ≡ where_seen config_reply (option_copied seen.entry)) }
{
    match seen {
        None => no_store_answer(alloc),
        Some(seen) => {
            let text = String::from_str(alloc, config_text(seen))?;
            Ok(json_reply(OK, text))
        }
    }
}

fn failsafe_page(alloc: Global, seen: Option<&Snapshot>) -> Result<Reply, AllocError>
    ensures { IfOk result (λ reply. reply_text reply ≡ where_seen failsafe_reply (option_copied seen.entry)) }
{
    match seen {
        None => no_store_answer(alloc),
        Some(seen) => failsafe_members(alloc, seen),
    }
}

fn failsafe_members(alloc: Global, seen: &Snapshot) -> Result<Reply, AllocError>
    ensures { IfOk result (λ reply. reply_text reply ≡ failsafe_reply seen.now) }
{
    match failsafe_text(alloc, seen)? {
        None => Ok(status_reply(alloc, BAD_GATEWAY)),
        Some(text) => Ok(json_reply(OK, text)),
    }
}

/// What is answered before the agent has read anything of the key store.
fn no_store_answer(alloc: Global) -> Result<Reply, AllocError>
    ensures { IfOk result (λ reply. reply_text reply ≡ no_store_answer) }
{
    text_reply(alloc, SERVICE_UNAVAILABLE, Text::NoStoreAnswer)
}
