//! Targets of requests: their path, their first parameter `lag`, and what each method asks for there.
use rest_health::Endpoint;
use rest_message::{Verb, lag_of, path_of};
use rest_paths::{Ask, Change, Page, Routes};
use std::alloc::{AllocError, Global};

/// The path of a target and its first parameter `lag`.
pub fn target(alloc: Global, target: &str) -> Result<String, AllocError> {
    let path = path_of(target);
    match lag_of(target) {
        None => format!(in alloc; "`{path}` without a lag"),
        Some(lag) => {
            let lag = String::from_utf8_lossy(alloc, lag)?;
            format!(in alloc; "`{path}` with lag `{lag}`")
        }
    }
}

/// The methods, in the order in which a row tells of them.
const VERBS: [Verb; 8] = [
    Verb::Get,
    Verb::Head,
    Verb::Options,
    Verb::Post,
    Verb::Patch,
    Verb::Put,
    Verb::Delete,
    Verb::Other,
];

/// What is asked for at a target by each method.
pub fn path(alloc: Global, target: &str) -> Result<String, AllocError> {
    let routes = Routes::new(alloc)?;
    let mut text = String::new(alloc);
    for verb in VERBS {
        if !text.is_empty() {
            text.push_str(" ")?;
        }
        write_ask(&mut text, routes.ask(verb, target))?;
    }
    Ok(text)
}

fn write_ask(text: &mut String, ask: Ask) -> Result<(), AllocError> {
    match ask {
        Ask::NotFound => text.push_str("404"),
        Ask::NotAllowed => text.push_str("405"),
        Ask::Health { endpoint, body } => {
            text.push_str(endpoint_word(endpoint))?;
            text.push_str(if body { "+body" } else { "" })
        }
        Ask::Page(page) => text.push_str(page_word(page)),
        Ask::Change(change) => text.push_str(change_word(change)),
    }
}

fn endpoint_word(endpoint: Endpoint) -> &'static str {
    match endpoint {
        Endpoint::Root => "root",
        Endpoint::Primary => "primary",
        Endpoint::ReadWrite => "read-write",
        Endpoint::Leader => "leader",
        Endpoint::Replica => "replica",
        Endpoint::ReadOnly => "read-only",
        Endpoint::Sync => "sync",
        Endpoint::Synchronous => "synchronous",
        Endpoint::ReadOnlySync => "read-only-sync",
        Endpoint::Async => "async",
        Endpoint::Asynchronous => "asynchronous",
        Endpoint::Health => "health",
        Endpoint::Readiness => "readiness",
        Endpoint::Liveness => "liveness",
    }
}

fn page_word(page: Page) -> &'static str {
    match page {
        Page::Patroni => "page-patroni",
        Page::Cluster => "page-cluster",
        Page::History => "page-history",
        Page::Config => "page-config",
        Page::Failsafe => "page-failsafe",
    }
}

fn change_word(change: Change) -> &'static str {
    match change {
        Change::Switchover => "switchover",
        Change::DropSwitchover => "drop-switchover",
        Change::Failover => "failover",
        Change::Restart => "restart",
        Change::Reinitialize => "reinitialize",
        Change::PatchConfiguration => "patch",
        Change::ReplaceConfiguration => "replace",
        Change::Failsafe => "hold",
    }
}
