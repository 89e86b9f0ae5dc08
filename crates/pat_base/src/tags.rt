//! Tags of members.
ghost use Rattle.std.specs.Prelude.{◌≡◌, ◌↔◌, ◌≤ℤ◌, ◌<ℤ◌, pos, negsuc, false, IsTrue};

/// What a member's configuration says of its part in the cluster, by Patroni's documentation, "YAML Configuration
/// Settings", under "Tags". The failover priority is from -1000 to 1000, and 1 where nothing sets it.
#[derive(Clone, Copy, Debug, PartialEq, Eq)]
pub struct Tags {
    /// The member never becomes the leader.
    pub nofailover: bool,
    /// The member is never chosen as a synchronous standby.
    pub nosync: bool,
    /// The member doesn't answer that it serves reads as a replica.
    pub noloadbalance: bool,
    /// Of members that have received the same log, the one with the greatest number is preferred as the leader. A member
    /// with 0 or less never becomes it.
    pub failover_priority: i64,
    ghost lowest: { negsuc 999 ≤ℤ failover_priority },
    ghost highest: { failover_priority ≤ℤ pos 1000 },
}

impl Tags {
    /// Whether the member may become the leader: nothing forbids it, and its priority is above 0.
    pub fn may_fail_over(&self) -> bool
        ensures { IsTrue result ↔ (self.now.nofailover ≡ false) × (pos 0 <ℤ self.now.failover_priority) }
    {
        !self.nofailover && self.failover_priority > 0
    }
}
