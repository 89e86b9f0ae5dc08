//! Transactions.

use crate::{ConfigValue, FailoverKey, HistoryRow, MemberInfo, Planned};
use pat_base::{Lsn, MemberSet, Ticks};
use std::fmt;

/// What a transaction expects at a key, or what was found there.
#[derive(Clone, Copy, Debug, PartialEq, Eq)]
pub enum Expected {
    /// The key is absent: it has no entry, or its lease has ended.
    Absent,
    /// The key is present, and was written last by the grant of this revision.
    Revision(u64),
}

impl fmt::Display for Expected {
    ghost use Rattle.std.specs.Prelude.{Some};
    ghost use Rattle.store_keys.specs.Words.{finding_text};

    ghost output = { λ found. Some (finding_text found) };

    fn fmt<W: fmt::Write>(&self, f: &mut fmt::Formatter<W>) -> fmt::Result {
        match self {
            Expected::Absent => f.write_str("is absent"),
            Expected::Revision(revision) => write!(f, "has revision {revision}"),
        }
    }
}

/// What a member asks of the store: it is granted where each key that it compares is as expected, and then it writes.
/// Patroni asks its store the same way, by compare-and-set.
///
/// `revision` is that of the leader key, but for `SetConfig`, where it is that of the configuration. A `ttl` is the span
/// of the leases that it writes, in ticks, which `Store::apply` wants to be at most 2^40.
#[derive(Drop)]
pub enum Txn {
    /// The member tells of itself. It compares nothing, so only want of memory refuses it.
    Touch { info: MemberInfo, ttl: Ticks },
    /// What it asks of the leader key.
    Lease(LeaseTxn),
    /// What a leader asks of the sync key.
    Sync(SyncTxn),
    /// What an operator asks for, and that it is done.
    Operators(OperatorTxn),
}

/// What a member asks of the leader key.
#[derive(Clone, Copy)]
pub enum LeaseTxn {
    /// The member takes the leader key, where that is absent, and tells of itself. Where `failsafe` says something, the
    /// failsafe key has to be so too: as the member read it, with failsafe mode. So has the sync key where `sync` says
    /// something: as the member read it, in quorum mode with failsafe mode.
    Create {
        info: MemberInfo,
        ttl: Ticks,
        failsafe: Option<Expected>,
        sync: Option<Expected>,
    },
    /// The member's lease of the leader key is extended under a new revision, never shortened; the member tells of itself;
    /// and what is given of the end of its log, a row of the history and the members to ask is written too.
    Renew {
        revision: u64,
        info: MemberInfo,
        ttl: Ticks,
        status: Option<Lsn>,
        row: Option<HistoryRow>,
        failsafe: Option<MemberSet>,
    },
    /// The leader key is given up: it is absent at once.
    Release {
        revision: u64,
    },
}

/// What a leader asks of the sync key.
#[derive(Clone, Copy)]
pub enum SyncTxn {
    /// The member becomes the leader of the synchronous replication, with no standby. The sync key is as it was read.
    Claim {
        revision: u64,
        sync: Expected,
    },
    /// The leader names the synchronous standbys, and with quorum commit how many of them may lack a commit that was
    /// acknowledged. The sync key is as it was read.
    SetSync {
        revision: u64,
        sync: Expected,
        standbys: MemberSet,
        quorum: Option<u8>,
    },
    /// The leader removes the sync key, which is of the revision `sync`: synchronous replication is off.
    DropSync {
        revision: u64,
        sync: u64,
    },
}

/// What an operator asks for by the key store, at once or later, and that it is done.
#[derive(Drop)]
pub enum OperatorTxn {
    /// A failover is asked for, where none is: the failover key is absent.
    SetFailover {
        failover: FailoverKey,
        ttl: Ticks,
    },
    /// The leader clears the failover that was asked for.
    DropFailover {
        revision: u64,
    },
    /// The configuration changes, where nobody else changed it.
    SetConfig {
        revision: u64,
        config: ConfigValue,
    },
    /// A switchover is to be asked for later, where none is yet.
    Schedule {
        planned: Planned,
    },
    /// The scheduled switchover, which is of the revision `scheduled`, isn't wanted any more.
    Unschedule {
        scheduled: u64,
    },
    /// The leader asks for the switchover that was scheduled, which is of the revision `scheduled`, where no failover is
    /// asked for: the failover key takes its place.
    Fire {
        revision: u64,
        scheduled: u64,
        failover: FailoverKey,
        ttl: Ticks,
    },
}
