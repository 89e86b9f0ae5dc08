//! The paths of health checks.

/// The paths that ask for the health of a member (Patroni documentation, "Patroni REST API", "Health check endpoints").
#[derive(Clone, Copy, PartialEq, Eq)]
pub enum Endpoint {
    /// `/`: the same as `/primary`.
    Root,
    /// `/primary`: the member runs as the primary, with the leader key.
    Primary,
    /// `/read-write`: the same as `/primary`.
    ReadWrite,
    /// `/leader`: the member has the leader key, whatever its server runs as.
    Leader,
    /// `/replica`: the member runs as a replica that takes load, within the lag that the query allows.
    Replica,
    /// `/read-only`: the member takes load as a replica, or is the primary with the leader key.
    ReadOnly,
    /// `/sync`: the same as `/synchronous`.
    Sync,
    /// `/synchronous`: the member takes load as a synchronous standby.
    Synchronous,
    /// `/read-only-sync`: that, or the primary with the leader key.
    ReadOnlySync,
    /// `/async`: the same as `/asynchronous`.
    Async,
    /// `/asynchronous`: the member takes load as an asynchronous standby, within the lag that the query allows.
    Asynchronous,
    /// `/health`: the server is up and running.
    Health,
    /// `/readiness`: the member leads, or its server is up and running.
    Readiness,
    /// `/liveness`: the agent's loop runs: its last turn is not too long ago.
    Liveness,
}
