//! Values for who holds the leader key. None of them can be copied or dropped: each transition takes its value apart and answers
//! the next one, so nothing is released twice, and nobody writes without a lease.
ghost use Rattle.std.specs.Prelude.{◌≡◌, ◌↔◌, ◌≤◌, IsErr, IfOk, IfErr, IsTrue, None, false};
ghost use Rattle.store_keys.specs.declared.txn.Txn.{Txn};
ghost use Rattle.pat_base.specs.ServerState.{live};
ghost use Rattle.leader_key.specs.Lease.{lease_revision, armed_revision, writer_revision};
ghost use Rattle.leader_key.specs.Watchdog.{IsLeaseSpan, IsRefusing, fed};
ghost use Rattle.pat_base.specs.Moments.{latest};

use crate::Watchdog;
use lease_store::Granted;
use pat_base::{State, Ticks};
use store_keys::{LeaseTxn, Txn};

/// The leader key was granted to this member. It must be spent.
pub struct Lease {
    revision: u64,
}

/// A lease whose watchdog was armed, where it could be: the member may begin to write.
pub struct Armed {
    revision: u64,
}

/// The member leads: its server accepts writes, or will when its start is complete.
pub struct Writer {
    revision: u64,
}

/// The watchdog is required, and its device doesn't work. The lease is handed back.
pub struct NotArmed(pub Lease);

impl Lease {
    /// The lease that a grant gave.
    pub fn of(granted: Granted) -> Lease
        requires { IsTrue granted.leased }
        ensures { lease_revision result ≡ granted.revision }
    {
        Lease {
            revision: granted.revision(),
        }
    }

    /// The watchdog is armed: its deadline is its timeout after `now`, over leases of the span `ttl` in ticks of 100 ms, where it
    /// is used and its device works. It is refused exactly where the watchdog is required and its device doesn't work; then the
    /// lease is handed back, and the watchdog stays as it was.
    pub fn arm(self, watchdog: &mut Watchdog, now: Ticks, ttl: Ticks) -> Result<Armed, NotArmed>
        requires moment { now.0 ≤ latest }
        requires span { IsLeaseSpan ttl.0 }
        ensures refused { IsErr result ↔ IsRefusing watchdog.old }
        ensures ok { IfOk result (λ armed. (armed_revision armed ≡ lease_revision self) × (watchdog.new ≡ fed now.0 ttl.0 watchdog.old)) }
        ensures err { IfErr result (λ e. (e.0 ≡ self) × (watchdog.new ≡ watchdog.old)) }
    {
        if watchdog.is_refusing() {
            return Err(NotArmed(self));
        }
        watchdog.feed(now, ttl);
        let Lease { revision } = self;
        Ok(Armed { revision })
    }

    /// While the cluster is paused a member leads without a watchdog: the deadline is removed.
    pub fn arm_without_watchdog(self, watchdog: &mut Watchdog) -> Armed
        ensures revision { armed_revision result ≡ lease_revision self }
        ensures watchdog { watchdog.new ≡ record watchdog.old { deadline = None } }
    {
        watchdog.disarm();
        let Lease { revision } = self;
        Armed { revision }
    }

    /// The request that gives the leader key up.
    pub fn release(self) -> Txn
        ensures { result ≡ Txn.Lease (LeaseTxn.Release (lease_revision self)) }
    {
        let Lease { revision } = self;
        Txn::Lease(LeaseTxn::Release { revision })
    }

    /// The key was lost: the lease is spent, and nothing is asked.
    pub fn lost(self) {
        let Lease { revision: _ } = self;
    }

    /// The revision that the leader key got with this lease.
    pub fn revision(&self) -> u64
        ensures { result ≡ lease_revision self.now }
    {
        self.revision
    }
}

impl Armed {
    /// The watchdog is disarmed, and the lease kept.
    pub fn undo(self, watchdog: &mut Watchdog) -> Lease
        ensures revision { lease_revision result ≡ armed_revision self }
        ensures watchdog { watchdog.new ≡ record watchdog.old { deadline = None } }
    {
        watchdog.disarm();
        let Armed { revision } = self;
        Lease { revision }
    }

    /// The machine is gone: the value is spent, and the watchdog stays as it is.
    pub fn wreck(self) {
        let Armed { revision: _ } = self;
    }

    /// The revision that the leader key got with this lease.
    pub fn revision(&self) -> u64
        ensures { result ≡ armed_revision self.now }
    {
        self.revision
    }
}

impl Writer {
    /// The member begins to write, on a lease whose watchdog was armed.
    pub fn begin(armed: Armed) -> Writer
        ensures { writer_revision result ≡ armed_revision armed }
    {
        let Armed { revision } = armed;
        Writer { revision }
    }

    /// The lease was renewed: the watchdog is fed, as in `Lease::arm`, and the lease is the one of the new revision.
    pub fn renewed(
        self,
        granted: Granted,
        watchdog: &mut Watchdog,
        now: Ticks,
        ttl: Ticks,
    ) -> Writer
        requires leased { IsTrue granted.leased }
        requires moment { now.0 ≤ latest }
        requires span { IsLeaseSpan ttl.0 }
        ensures revision { writer_revision result ≡ granted.revision }
        ensures watchdog { watchdog.new ≡ fed now.0 ttl.0 watchdog.old }
    {
        watchdog.feed(now, ttl);
        self.replaced_by(granted)
    }

    /// The lease was renewed, but that was heard too late: the lease is the one of the new revision, and the watchdog's deadline stays.
    pub fn kept(self, granted: Granted) -> Writer
        requires { IsTrue granted.leased }
        ensures { writer_revision result ≡ granted.revision }
    {
        self.replaced_by(granted)
    }

    /// The lease was renewed while the cluster is paused: the deadline is removed.
    pub fn renewed_without_watchdog(self, granted: Granted, watchdog: &mut Watchdog) -> Writer
        requires { IsTrue granted.leased }
        ensures revision { writer_revision result ≡ granted.revision }
        ensures watchdog { watchdog.new ≡ record watchdog.old { deadline = None } }
    {
        watchdog.disarm();
        self.replaced_by(granted)
    }

    /// The lease isn't renewed, but all other members promised not to take the leader key for the span `ttl`: the watchdog is fed, as in
    /// `Lease::arm`, and the lease stays as it is (Patroni documentation, "DCS Failsafe Mode").
    pub fn feed_by_failsafe(&self, watchdog: &mut Watchdog, now: Ticks, ttl: Ticks)
        requires moment { now.0 ≤ latest }
        requires span { IsLeaseSpan ttl.0 }
        ensures { watchdog.new ≡ fed now.0 ttl.0 watchdog.old }
    {
        watchdog.feed(now, ttl);
    }

    /// The same writer, on the lease of a renewal.
    fn replaced_by(self, granted: Granted) -> Writer
        ensures { writer_revision result ≡ granted.revision }
    {
        let Writer { revision: _ } = self;
        let revision = granted.revision();
        Writer { revision }
    }

    /// The member's server has ended: it accepts no writes and won't. The watchdog is disarmed, and the lease kept.
    pub fn end(self, state: &State, watchdog: &mut Watchdog) -> Lease
        requires { live state.now ≡ false }
        ensures revision { lease_revision result ≡ writer_revision self }
        ensures watchdog { watchdog.new ≡ record watchdog.old { deadline = None } }
    {
        prove!(!state.live());
        watchdog.disarm();
        let Writer { revision } = self;
        Lease { revision }
    }

    /// The machine is gone: the value is spent, and the watchdog stays as it is.
    pub fn wreck(self) {
        let Writer { revision: _ } = self;
    }

    /// The revision that the leader key got with this lease.
    pub fn revision(&self) -> u64
        ensures { result ≡ writer_revision self.now }
    {
        self.revision
    }
}
