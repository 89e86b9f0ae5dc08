//! Health checks of what an agent shows.
use crate::bench::role;
use crate::stop::{Stop, known};
use crate::words::first_word;
use cluster_view::AgentView;
use rest_answer::{Answer, answer};
use rest_facts::health_of_view;
use rest_health::Endpoint;
use rest_message::{Reply, Verb};
use rest_paths::Routes;
use std::alloc::{AllocError, Global};

/// The paths of health checks, in the order of a row of signs.
const PATHS: [&str; 14] = [
    "/",
    "/primary",
    "/read-write",
    "/leader",
    "/replica",
    "/read-only",
    "/sync",
    "/synchronous",
    "/read-only-sync",
    "/async",
    "/asynchronous",
    "/health",
    "/readiness",
    "/liveness",
];

/// What health checks tell: `in ROLES` a sign for each path, in each of the roles, and `ENDPOINT [LAG]` the status of one; `empty` is a lag without bytes.
pub fn told(alloc: Global, view: &AgentView<'_>, asked: &str) -> Result<String, Stop> {
    let (word, lag) = first_word(asked);
    if word == "in" {
        return signs_in(alloc, view, lag);
    }
    let endpoint = known(endpoint_of(word))?;
    let lag = match lag {
        "" => None,
        "empty" => Some(b"".as_slice()),
        lag => Some(lag.as_bytes()),
    };
    let status = health_of_view(view, endpoint, lag);
    Ok(format!(in alloc; "{status}")?)
}

fn endpoint_of(word: &str) -> Option<Endpoint> {
    match word {
        "primary" => Some(Endpoint::Primary),
        "replica" => Some(Endpoint::Replica),
        "read-only" => Some(Endpoint::ReadOnly),
        "async" => Some(Endpoint::Async),
        "liveness" => Some(Endpoint::Liveness),
        _ => None,
    }
}

/// The signs of each of these roles; once, where they are the same.
fn signs_in(alloc: Global, view: &AgentView<'_>, roles: &str) -> Result<String, Stop> {
    let mut all = String::new(alloc);
    for word in roles.split(',') {
        let mut view = *view;
        view.role = role(word)?;
        let signs = signs(alloc, &view)?;
        if signs.as_str() != all.as_str() {
            all.push_str(signs.as_str())?;
        }
    }
    Ok(all)
}

/// A sign for each path: `+` for 200 and `-` for 503 where all methods tell what they are to, else `?`.
fn signs(alloc: Global, view: &AgentView<'_>) -> Result<String, AllocError> {
    let routes = Routes::new(alloc)?;
    let mut text = String::new(alloc);
    for path in PATHS {
        text.push(sign(alloc, view, &routes, path)?)?;
    }
    Ok(text)
}

/// `GET` tells the status with a body, `HEAD` and `OPTIONS` the same without one, and the others 405 without one.
fn sign(
    alloc: Global,
    view: &AgentView<'_>,
    routes: &Routes,
    path: &str,
) -> Result<char, AllocError> {
    let status = match told_by(alloc, view, routes, Verb::Get, path)? {
        Some((status, true)) => status,
        _ => return Ok('?'),
    };
    for verb in [Verb::Head, Verb::Options] {
        if told_by(alloc, view, routes, verb, path)? != Some((status, false)) {
            return Ok('?');
        }
    }
    for verb in [
        Verb::Post,
        Verb::Patch,
        Verb::Put,
        Verb::Delete,
        Verb::Other,
    ] {
        if told_by(alloc, view, routes, verb, path)? != Some((405, false)) {
            return Ok('?');
        }
    }
    Ok(sign_of(status))
}

fn sign_of(status: u16) -> char {
    match status {
        200 => '+',
        503 => '-',
        _ => '?',
    }
}

/// The status that is replied, and whether there is a body; none where the request changes something.
fn told_by(
    alloc: Global,
    view: &AgentView<'_>,
    routes: &Routes,
    verb: Verb,
    path: &str,
) -> Result<Option<(u16, bool)>, AllocError> {
    match reply_to(alloc, view, routes, verb, path)? {
        Some(reply) => Ok(Some((reply.status, !reply.body.is_empty()))),
        None => Ok(None),
    }
}

/// What is replied to a request, where it changes nothing.
pub fn reply_to(
    alloc: Global,
    view: &AgentView<'_>,
    routes: &Routes,
    verb: Verb,
    path: &str,
) -> Result<Option<Reply>, AllocError> {
    match answer(alloc, view, routes, verb, path, b"{}")? {
        Answer::Now(reply) => Ok(Some(reply)),
        Answer::Act(_) => Ok(None),
    }
}
