//! What requests ask for.
ghost use Rattle.std.specs.Prelude.{◌≡◌};
ghost use Rattle.rest_paths.specs.Asking.{health_ask, page_ask, operation_ask, ask_at, ask_where};

use crate::change::change_by;
use crate::{Change, Operation, Page, Resource};
use rest_health::Endpoint;
use rest_message::Verb;

/// What a request asks for, by its method and its path (Patroni documentation, "Patroni REST API").
#[derive(Clone, Copy, PartialEq, Eq)]
pub enum Ask {
    /// Nothing: the path is unknown, whatever the method (RFC 9110, "404 Not Found").
    NotFound,
    /// Nothing: the path is known, but not with this method (RFC 9110, "405 Method Not Allowed").
    NotAllowed,
    /// The health of the member: the status, and with a body what `/patroni` tells. `GET` asks for a body, `HEAD` and `OPTIONS`
    /// for none.
    Health { endpoint: Endpoint, body: bool },
    /// A page, by `GET`.
    Page(Page),
    /// A change, by `POST`, `DELETE`, `PATCH` or `PUT`.
    Change(Change),
}

/// What is asked for where a path stands for this, or for nothing.
pub(crate) fn ask_where(verb: Verb, resource: Option<Resource>) -> Ask
    ensures { result ≡ ask_where verb resource }
{
    match resource {
        None => Ask::NotFound,
        Some(resource) => ask_at(verb, resource),
    }
}

fn ask_at(verb: Verb, resource: Resource) -> Ask
    ensures { result ≡ ask_at verb resource }
{
    match resource {
        Resource::Health(endpoint) => health_ask(verb, endpoint),
        Resource::Page(page) => page_ask(verb, page),
        Resource::Operation(operation) => operation_ask(verb, operation),
    }
}

fn health_ask(verb: Verb, endpoint: Endpoint) -> Ask
    ensures { result ≡ health_ask verb endpoint }
{
    match verb {
        Verb::Get => Ask::Health {
            endpoint,
            body: true,
        },
        Verb::Head | Verb::Options => Ask::Health {
            endpoint,
            body: false,
        },
        _ => Ask::NotAllowed,
    }
}

fn page_ask(verb: Verb, page: Page) -> Ask
    ensures { result ≡ page_ask verb page }
{
    match (verb, page) {
        (Verb::Get, page) => Ask::Page(page),
        (Verb::Patch, Page::Config) => Ask::Change(Change::PatchConfiguration),
        (Verb::Put, Page::Config) => Ask::Change(Change::ReplaceConfiguration),
        (Verb::Post, Page::Failsafe) => Ask::Change(Change::Failsafe),
        _ => Ask::NotAllowed,
    }
}

fn operation_ask(verb: Verb, operation: Operation) -> Ask
    ensures { result ≡ operation_ask verb operation }
{
    match (verb, operation) {
        (Verb::Post, operation) => Ask::Change(change_by(operation)),
        (Verb::Delete, Operation::Switchover) => Ask::Change(Change::DropSwitchover),
        _ => Ask::NotAllowed,
    }
}
