//! The status that each path answers.
ghost use Rattle.std.specs.Prelude.{◌≡◌};
ghost use Rattle.rest_health.specs.Health.{health_of};

use crate::Endpoint;
use crate::tables::{
    async_status, health_status, leader_status, liveness_status, primary_status, read_only_status,
    read_only_sync_status, readiness_status, replica_status, sync_status,
};

/// The member is what the path asks for (RFC 9110, "200 OK").
pub const OK: u16 = 200;
/// The member is not what the path asks for (RFC 9110, "503 Service Unavailable").
pub const UNAVAILABLE: u16 = 503;

/// The status that a path answers where these facts hold: `OK` or `UNAVAILABLE` (Patroni documentation, "Patroni REST API", "Health check
/// endpoints").
pub fn health(endpoint: Endpoint, facts: u32) -> u16
    ensures { result ≡ health_of endpoint facts }
{
    match endpoint {
        Endpoint::Root | Endpoint::Primary | Endpoint::ReadWrite => primary_status(facts),
        Endpoint::Leader => leader_status(facts),
        Endpoint::Replica => replica_status(facts),
        Endpoint::ReadOnly => read_only_status(facts),
        Endpoint::Sync | Endpoint::Synchronous => sync_status(facts),
        Endpoint::ReadOnlySync => read_only_sync_status(facts),
        Endpoint::Async | Endpoint::Asynchronous => async_status(facts),
        Endpoint::Health => health_status(facts),
        Endpoint::Readiness => readiness_status(facts),
        Endpoint::Liveness => liveness_status(facts),
    }
}
