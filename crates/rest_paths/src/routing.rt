//! The routes of all paths.
ghost use Rattle.std.specs.Prelude.{◌≡◌};
ghost use Rattle.matchit.specs.declared.error.InsertError.TheVariants.{OutOfMemory};
ghost use Rattle.rest_paths.specs.Asking.{ask_of};
ghost use Rattle.rest_paths.specs.Paths.{resource_at};
ghost use Rattle.rest_paths.specs.Serving.{Serves};
ghost use Rattle.rest_message.specs.Targets as targets;

use crate::asking::ask_where;
use crate::{Ask, Operation, Page, Resource};
use matchit::{InsertError, Router};
use rest_health::Endpoint;
use rest_message::{Verb, path_of};
use std::alloc::{AllocError, Global};

/// Each path with what it stands for.
const PATH_TABLE: [(&str, Resource); 23] = [
    ("/", Resource::Health(Endpoint::Root)),
    ("/primary", Resource::Health(Endpoint::Primary)),
    ("/read-write", Resource::Health(Endpoint::ReadWrite)),
    ("/leader", Resource::Health(Endpoint::Leader)),
    ("/replica", Resource::Health(Endpoint::Replica)),
    ("/read-only", Resource::Health(Endpoint::ReadOnly)),
    ("/sync", Resource::Health(Endpoint::Sync)),
    ("/synchronous", Resource::Health(Endpoint::Synchronous)),
    ("/read-only-sync", Resource::Health(Endpoint::ReadOnlySync)),
    ("/async", Resource::Health(Endpoint::Async)),
    ("/asynchronous", Resource::Health(Endpoint::Asynchronous)),
    ("/health", Resource::Health(Endpoint::Health)),
    ("/readiness", Resource::Health(Endpoint::Readiness)),
    ("/liveness", Resource::Health(Endpoint::Liveness)),
    ("/patroni", Resource::Page(Page::Patroni)),
    ("/cluster", Resource::Page(Page::Cluster)),
    ("/history", Resource::Page(Page::History)),
    ("/config", Resource::Page(Page::Config)),
    ("/failsafe", Resource::Page(Page::Failsafe)),
    ("/switchover", Resource::Operation(Operation::Switchover)),
    ("/failover", Resource::Operation(Operation::Failover)),
    ("/restart", Resource::Operation(Operation::Restart)),
    (
        "/reinitialize",
        Resource::Operation(Operation::Reinitialize),
    ),
];

/// The routes of all paths of the REST interface, made once and asked for each request, as a server does.
#[derive(Drop)]
pub struct Routes {
    router: Router<Resource>,
    ghost serves: { Serves router },
}

impl Routes {
    ghost use Rattle.std.specs.Prelude.{◌≡◌};
    ghost use Rattle.rest_paths.specs.Asking.{ask_of};
    ghost use Rattle.rest_paths.specs.Paths.{resource_at};
    ghost use Rattle.rest_message.specs.Targets as targets;

    /// The routes of all paths. It fails only for want of memory.
    pub fn new(alloc: Global) -> Result<Routes, AllocError> {
        let mut router = Router::new(alloc);
        for (path, resource) in &PATH_TABLE {
            if let Err(fault) = router.insert(path, *resource) {
                return Err(want_of_memory(fault));
            }
        }
        Ok(Routes { router })
    }

    /// What a request of this method and this target asks for. The path is what stands before the first question mark, and
    /// is looked for byte for byte: nothing is decoded, and a slash at the end counts (Patroni documentation, "Patroni REST
    /// API"). It takes no memory.
    pub fn ask(&self, verb: Verb, target: &str) -> Ask
        ensures { result ≡ ask_of verb (targets.path_of target.now) }
    {
        ask_where(verb, self.resource_at(path_of(target)))
    }

    /// What a path stands for.
    fn resource_at(&self, path: &str) -> Option<Resource>
        ensures { result ≡ resource_at path.now }
    {
        match self.router.at(path) {
            Ok(found) => Some(*found.value),
            Err(_) => None,
        }
    }
}

/// The one fault of an insertion where no route is malformed and no two are in conflict.
fn want_of_memory(fault: InsertError) -> AllocError
    requires { fault ≡ OutOfMemory }
{
    match fault {
        InsertError::OutOfMemory => AllocError,
        _ => unreachable!(),
    }
}
