//! The requests of commands (Patroni documentation, "Patroni REST API").
ghost use Rattle.std.specs.Prelude.{◌≡◌, IfOk, option_map, string_bytes};
ghost use Rattle.rest_message.specs.Requests.{request_text};
ghost use Rattle.patronictl.specs.Requests.{config_change, failover_body, posted, request_with, switchover_body};

use rest_message::{Request, Verb};
use std::alloc::{AllocError, Global};

/// `PATCH /config` with this change.
pub(crate) fn config_change(alloc: Global, body: &str) -> Result<Request, AllocError>
    ensures { IfOk result (λ request. request_text request ≡ config_change body.now) }
{
    request_with(alloc, Verb::Patch, "/config", body)
}

/// `POST` of a body to this path.
pub(crate) fn posted(alloc: Global, path: &str, body: &str) -> Result<Request, AllocError>
    ensures { IfOk result (λ request. request_text request ≡ posted path.now body.now) }
{
    request_with(alloc, Verb::Post, path, body)
}

fn request_with(alloc: Global, method: Verb, path: &str, body: &str) -> Result<Request, AllocError>
    ensures { IfOk result (λ request. request_text request ≡ request_with method path.now body.now) }
{
    Ok(Request {
        method,
        target: String::from_str(alloc, path)?,
        body: Vec::from_slice(alloc, body.as_bytes())?,
    })
}

/// The body of a switchover from this leader, to this candidate where there is one. Names need no escapes in JSON.
pub(crate) fn switchover_body(
    alloc: Global,
    leader: &str,
    candidate: Option<String>,
) -> Result<String, AllocError>
    ensures { IfOk result (λ body. string_bytes body ≡ switchover_body leader.now (option_map string_bytes candidate)) }
{
    match candidate {
        None => format!(in alloc; "{{\"leader\":\"{leader}\"}}"),
        Some(candidate) => {
            format!(in alloc; "{{\"leader\":\"{leader}\",\"candidate\":\"{candidate}\"}}")
        }
    }
}

/// The body of a failover to this candidate.
pub(crate) fn failover_body(alloc: Global, candidate: &str) -> Result<String, AllocError>
    ensures { IfOk result (λ body. string_bytes body ≡ failover_body candidate.now) }
{
    format!(in alloc; "{{\"candidate\":\"{candidate}\"}}")
}
