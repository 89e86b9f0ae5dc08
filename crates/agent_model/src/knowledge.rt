//! All that an agent knows beside its role.

use crate::{Answers, Operating, Who};
use cluster_view::Snapshot;
use failsafe::Ask;
use pat_base::{Lsn, MemberSet, Ticks};
use store_keys::{Config, FailoverKey, SyncKey};

/// What a leader's required list becomes once its write of the sync key is granted.
#[derive(Clone, Copy, PartialEq, Eq)]
pub enum Settling {
    /// It stays.
    KeepsList,
    /// It names these standbys alone.
    NamesStandbys(MemberSet),
    /// It waits for nobody.
    ClearsList,
}

/// A question whose answer an agent may wait for.
#[derive(Clone, Copy, PartialEq, Eq)]
pub enum Question {
    /// What does the key store hold?
    Reading,
    /// How far are the other members' servers?
    ComparingPositions,
    /// May it have the leader key, which is absent?
    Creating,
    /// May it have the leader key for longer?
    Renewing,
    /// May it lead the synchronous replication?
    Claiming,
    /// May it name the synchronous standbys, so that its required list becomes this?
    Syncing(Settling),
    /// Which other member may lead in its place?
    FindingCandidate,
    /// May it go on without the key store, by the word of all other members?
    StayingPrimary,
}

/// A sync key that was read, with its revision.
#[derive(Clone, Copy, PartialEq, Eq)]
pub struct SyncRead {
    pub key: SyncKey,
    pub revision: u64,
}

/// A failsafe key that was read, with its revision.
#[derive(Clone, Copy, PartialEq, Eq)]
pub struct FailsafeRead {
    pub members: MemberSet,
    pub revision: u64,
}

/// What an agent waits for: the question, its number in the agent's incarnation, the moment at which waiting ends, the span of the
/// leases that were asked for, and the moment of asking.
#[derive(Clone, Copy, PartialEq, Eq)]
pub struct PendingQuestion {
    pub question: Question,
    pub sequence: u64,
    pub until: Ticks,
    pub ttl: Ticks,
    pub sent: Ticks,
}

/// All that an agent knows beside its role.
#[derive(Drop)]
pub struct Knowledge {
    pub who: Who,
    /// The number of this incarnation of the agent.
    pub incarnation: u64,
    pub waited: Option<PendingQuestion>,
    /// The number of the last message of this incarnation.
    pub sequence: u64,
    /// When the last turn of this incarnation began, and when the next one is due.
    pub last_turn: Option<Ticks>,
    pub next_turn: Ticks,
    /// When the last read was answered.
    pub last_read: Option<Ticks>,
    /// The newest snapshot, and the settings of its configuration.
    pub seen: Option<Snapshot>,
    pub settings: Config,
    /// The settings, the sync key, the failover key and the failsafe key that the last turn read: what it asked for is judged by
    /// them.
    pub turn_settings: Config,
    pub turn_sync: Option<SyncRead>,
    pub turn_failover: Option<FailoverKey>,
    pub turn_failsafe: Option<FailsafeRead>,
    /// Where its log ended when a standby was last added to the required list, or the server taken over: who becomes a
    /// standby must have confirmed this position.
    pub noted: Option<Lsn>,
    /// When this incarnation began the server, or took it over.
    pub begun: Option<Ticks>,
    /// When a leader was first found without its server.
    pub crashed: Option<Ticks>,
    /// The members that a failsafe key of a snapshot listed which this incarnation accepted, or that it wrote into that key itself with a
    /// renewal; and whether there was such a key.
    pub known: MemberSet,
    pub informed: bool,
    /// Whether this incarnation was granted the leader key while it led, or to lead, with a failsafe key in the grant's snapshot.
    pub confirmed: bool,
    /// Its last failsafe request, and who acknowledged it.
    pub failsafe: Ask,
    /// Whether this incarnation ended its server to hand over, and read of no other leader since.
    pub handed_over: bool,
    /// What other members answered since this one asked them last.
    pub answers: Answers,
    /// The request of an operator that waits for its result.
    pub operating: Option<Operating>,
}
