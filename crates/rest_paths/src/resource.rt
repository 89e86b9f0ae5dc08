//! What the paths of the REST interface stand for.

use rest_health::Endpoint;

/// What tells of a member or of its cluster (Patroni documentation, "Patroni REST API", "Monitoring endpoint", "Cluster status
/// endpoints", "Config endpoint").
#[derive(Clone, Copy, PartialEq, Eq)]
pub enum Page {
    /// `/patroni`: the member's server and its agent.
    Patroni,
    /// `/cluster`: all members of the cluster.
    Cluster,
    /// `/history`: when which timeline began.
    History,
    /// `/config`: the configuration, which can be changed there.
    Config,
    /// `/failsafe`: the members that the failsafe key lists, and where a leader without the key store asks to stay primary (Patroni
    /// documentation, "DCS Failsafe Mode").
    Failsafe,
}

/// What an operator has a cluster or a member do (Patroni documentation, "Patroni REST API").
#[derive(Clone, Copy, PartialEq, Eq)]
pub enum Operation {
    /// `/switchover`: the leader hands over to another member ("Switchover and failover endpoints").
    Switchover,
    /// `/failover`: another member leads, whether or not there is a leader (there too).
    Failover,
    /// `/restart`: the server restarts ("Restart endpoint").
    Restart,
    /// `/reinitialize`: the server is wiped and copied anew ("Reinitialize endpoint").
    Reinitialize,
}

/// What a path stands for: the target resource of a request (RFC 9110, section 3.1).
#[derive(Clone, Copy, PartialEq, Eq)]
pub enum Resource {
    /// The health of the member, as one of the fourteen paths of health checks asks for it.
    Health(Endpoint),
    /// A page.
    Page(Page),
    /// An operation.
    Operation(Operation),
}
