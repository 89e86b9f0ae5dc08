//! The values of keys.
ghost use Rattle.std.specs.Prelude.{◌≡◌, IfOk};
ghost use Rattle.store_keys.specs.Holders.{holder_of};

use crate::ConfigValue;
use pat_base::{Host, Lsn, MemberId, MemberSet, Tags, Ticks, Word};
use std::alloc::AllocError;

/// What a member tells of itself, as Patroni's key `/members/NAME` has it.
#[derive(Clone, Copy, PartialEq, Eq)]
pub struct MemberInfo {
    /// Where the others reach it.
    pub host: Host,
    /// What its configuration says of its part in the cluster.
    pub tags: Tags,
    /// What its server does.
    pub state: Word,
    /// Whether its server accepts writes.
    pub writes: bool,
    /// The timeline that its server is on, from 1. There exactly where it runs as a replica or as a primary.
    pub timeline: Option<u64>,
    /// Where its server's log ends. There exactly where the timeline is.
    pub end: Option<Lsn>,
}

/// A failover or a switchover that was asked for, as Patroni's key `/failover` has it (its documentation of the REST API,
/// "Switchover and failover endpoints").
#[derive(Clone, Copy, PartialEq, Eq)]
pub struct FailoverKey {
    /// The leader that is to step down. `None`: whoever leads.
    pub leader: Option<MemberId>,
    /// The member that is to lead. `None`: any other one that may.
    pub candidate: Option<MemberId>,
}

/// Who leads with synchronous replication, and who replicates synchronously, as Patroni's key `/sync` has it (its
/// documentation, "Replication modes"). Only a member that it names may take over without losing commits; with quorum
/// commit one of them, by what more of them than `quorum` have in their logs.
#[derive(Clone, Copy, PartialEq, Eq)]
pub struct SyncKey {
    /// The leader that wrote the key.
    pub leader: MemberId,
    /// The standbys whose confirmation its commits wait for, without the leader itself.
    pub standbys: MemberSet,
    /// How many of the standbys may lack a commit that was acknowledged. 0 but with quorum commit.
    pub quorum: u8,
}

/// How a timeline ended, as a row of Patroni's key `/history`.
#[derive(Clone, Copy, PartialEq, Eq)]
pub struct HistoryRow {
    /// The timeline that ended, from 1. The row stands under the key of this one.
    pub timeline: u64,
    /// The position at which it ended.
    pub at: Lsn,
    /// The moment of its end, in ticks from the start of the run.
    pub tick: Ticks,
    /// Who took over, on the next timeline.
    pub leader: MemberId,
}

/// A switchover that is to be asked for later (Patroni's documentation of the REST API, "Switchover and failover
/// endpoints").
#[derive(Clone, Copy, PartialEq, Eq)]
pub struct Planned {
    /// The leader that is to step down.
    pub leader: MemberId,
    /// The member that is to lead. `None`: any other one that may.
    pub candidate: Option<MemberId>,
    /// From when on it is asked for, in ticks from the start of the run.
    pub at: Ticks,
}

/// The value of a key, with one kind for each kind of key: `Key` says what each is for.
#[derive(Drop)]
pub enum Value {
    /// The member that leads.
    Leader(MemberId),
    /// The configuration of the cluster.
    Config(ConfigValue),
    /// What a member tells of itself.
    Member(MemberInfo),
    /// A failover or a switchover that was asked for.
    Failover(FailoverKey),
    /// Which members replicate synchronously.
    Sync(SyncKey),
    /// Where the leader's log ends.
    Status(Lsn),
    /// How a timeline ended.
    History(HistoryRow),
    /// The members that the leader may ask while the store is out of reach.
    Failsafe(MemberSet),
    /// A switchover that is to be asked for later.
    Scheduled(Planned),
}

/// What the store holds at a key.
#[derive(Drop)]
pub struct KeyEntry {
    /// Its value, of the key's kind.
    pub value: Value,
    /// The revision of the write that it comes from: what a transaction compares.
    pub revision: u64,
    /// The moment at which its lease ends, in ticks from the start of the run: from then on the key is absent. `None`
    /// where it has no lease.
    pub expiry: Option<Ticks>,
}

impl Value {
    /// The member that the leader key names. `None` exactly for a value of another key.
    pub fn holder(&self) -> Option<MemberId>
        ensures { result ≡ holder_of self.now }
    {
        match self {
            Value::Leader(member) => Some(*member),
            Value::Config(_)
            | Value::Member(_)
            | Value::Failover(_)
            | Value::Sync(_)
            | Value::Status(_)
            | Value::History(_)
            | Value::Failsafe(_)
            | Value::Scheduled(_) => None,
        }
    }

    /// The same value once more. It fails only for want of memory.
    pub fn try_clone(&self) -> Result<Value, AllocError>
        ensures { IfOk result (λ value. value ≡ self.now) }
    {
        match self {
            Value::Leader(member) => Ok(Value::Leader(*member)),
            Value::Config(config) => Ok(Value::Config(config.try_clone()?)),
            Value::Member(info) => Ok(Value::Member(*info)),
            Value::Failover(failover) => Ok(Value::Failover(*failover)),
            Value::Sync(sync) => Ok(Value::Sync(*sync)),
            Value::Status(end) => Ok(Value::Status(*end)),
            Value::History(row) => Ok(Value::History(*row)),
            Value::Failsafe(members) => Ok(Value::Failsafe(*members)),
            Value::Scheduled(planned) => Ok(Value::Scheduled(*planned)),
        }
    }
}
