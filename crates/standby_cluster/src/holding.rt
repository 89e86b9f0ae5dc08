//! The leader key as the leader of a standby cluster holds it.
ghost use Rattle.std.specs.Prelude.{◌≡◌};
ghost use Rattle.leader_key.specs.Lease.{lease_revision};
ghost use Rattle.standby_cluster.specs.Holding.{standby_revision};

use leader_key::Lease;

/// The leader key was granted to this member, which keeps it to lead a standby cluster: its server follows the remote
/// primary (Patroni's documentation, "Standby cluster"). It must be spent, and no watchdog can be armed on it, so that
/// nobody begins to write on it.
pub struct StandbyLease {
    lease: Lease,
}

impl StandbyLease {
    /// Keeps a lease to lead a standby cluster on it.
    pub fn keep(lease: Lease) -> StandbyLease
        ensures { standby_revision result ≡ lease_revision lease }
    {
        StandbyLease { lease }
    }

    /// Hands out the lease once the cluster follows no other one any more: a watchdog can be armed on it from then on.
    pub fn leave(self) -> Lease
        ensures { lease_revision result ≡ standby_revision self }
    {
        let StandbyLease { lease } = self;
        lease
    }

    /// The key was lost: the lease is spent, and nothing is asked.
    pub fn lost(self) {
        let StandbyLease { lease } = self;
        lease.lost();
    }

    /// The revision that the leader key got with this lease.
    pub fn revision(&self) -> u64
        ensures { result ≡ standby_revision self.now }
    {
        self.lease.revision()
    }
}
