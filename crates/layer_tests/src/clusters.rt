//! A key store, and what it is asked.
ghost use Rattle.std.specs.Prelude.{◌≡◌};
ghost use Rattle.lease_store.specs.Writes.{ttl_of};

use cluster_config::ConfigText;
use lease_store::{Store, StoreRefusal};
use pat_base::{Host, Lsn, MemberId, Tags, Ticks, Word};
use std::alloc::Global;
use std::process::Abort;
use store_keys::{ConfigValue, LeaseTxn, MemberInfo, OperatorTxn, SyncTxn, Txn};

pub(crate) const A: MemberId = MemberId { number: 0 };

pub(crate) const B: MemberId = MemberId { number: 1 };

pub(crate) const C: MemberId = MemberId { number: 2 };

/// The last moment.
pub(crate) const NOW: Ticks = Ticks(104);

/// How long each lease lasts at most.
const TTL: Ticks = Ticks(300);

/// Where the logs end: 0/5000000.
pub(crate) const END: Lsn = Lsn {
    position: 83_886_080,
};

/// The tags of a member that sets none.
const TAGS: Tags = Tags {
    nofailover: false,
    nosync: false,
    noloadbalance: false,
    failover_priority: 1,
};

/// What a member tells of itself.
pub(crate) fn info() -> MemberInfo {
    MemberInfo {
        host: Host::local(),
        tags: TAGS,
        state: Word::Running,
        writes: false,
        timeline: None,
        end: None,
    }
}

/// The span of the leases that a transaction writes.
fn span(txn: &Txn) -> Ticks
    ensures { result.0 ≡ ttl_of txn.now }
{
    match txn {
        Txn::Touch { ttl, .. }
        | Txn::Lease(LeaseTxn::Create { ttl, .. })
        | Txn::Lease(LeaseTxn::Renew { ttl, .. })
        | Txn::Operators(OperatorTxn::SetFailover { ttl, .. })
        | Txn::Operators(OperatorTxn::Fire { ttl, .. }) => *ttl,
        Txn::Lease(LeaseTxn::Release { .. })
        | Txn::Sync(SyncTxn::Claim { .. })
        | Txn::Sync(SyncTxn::SetSync { .. })
        | Txn::Sync(SyncTxn::DropSync { .. })
        | Txn::Operators(OperatorTxn::DropFailover { .. })
        | Txn::Operators(OperatorTxn::SetConfig { .. })
        | Txn::Operators(OperatorTxn::Schedule { .. })
        | Txn::Operators(OperatorTxn::Unschedule { .. }) => Ticks(0),
    }
}

/// What a member's request is answered at a moment: the revision of its grant, or why it is refused.
pub(crate) fn ask(
    rt: &impl Abort,
    store: &mut Store,
    at: Ticks,
    by: MemberId,
    txn: Txn,
) -> Result<u64, StoreRefusal> {
    assert!(rt; store.revision() < 1000 && at <= NOW && span(&txn) <= TTL);
    Ok(store.apply(at, by, &txn)?.revision())
}

pub(crate) fn configuration(rt: &impl Abort, alloc: Global, bytes: &[u8]) -> ConfigValue {
    ConfigValue::read(alloc, bytes).expect(rt, "a configuration")
}

/// The store of this configuration, which has no other key.
pub(crate) fn store_of(rt: &impl Abort, alloc: Global, bytes: &[u8]) -> Store {
    Store::new(alloc, configuration(rt, alloc, bytes)).expect(rt, "memory")
}
