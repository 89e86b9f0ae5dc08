//! What operators ask of an agent, and other members by the same interface.
use crate::{ConfigValue, FailoverKey};
use pat_base::MemberId;

/// Which of the two requests that end in a failover key was made.
#[derive(Clone, Copy, PartialEq, Eq)]
pub enum FailoverKind {
    /// The leader is to hand over to another member.
    Switchover,
    /// Another member is to lead, whether or not there is a leader.
    Failover,
}

/// What an operator, or another member in the way of one, asks of an agent.
#[derive(Drop)]
pub enum OperatorRequest {
    /// A failover key is to be written.
    Failover {
        kind: FailoverKind,
        failover: FailoverKey,
    },
    /// A configuration is to be written.
    Configuration(ConfigValue),
    /// The server is to restart.
    Restart,
    /// The server is to be wiped and copied anew.
    Reinit,
    /// This other member, which leads without the key store, asks that the agent's own doesn't take the leader key for so many ticks of 100 ms
    /// (Patroni documentation, "DCS Failsafe Mode").
    Hold {
        from: MemberId,
        ttl: u32,
    },
}

/// A request of an operator that passed its checks, and its number in the run.
#[derive(Drop)]
pub struct OperatorAction {
    /// Its number in the run.
    pub request: u64,
    /// What it asks.
    pub asked: OperatorRequest,
}
