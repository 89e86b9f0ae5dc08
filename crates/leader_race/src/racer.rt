//! A member that races, and the rules by which the answers of others bar it.

use pat_base::{Lsn, MemberId};
use store_keys::{FailoverKey, SyncKey};

/// What a race is judged by of the key store.
#[derive(Clone, Copy, PartialEq, Eq)]
pub struct RaceKeys {
    pub failover: Option<FailoverKey>,
    /// The sync key, where the synchronous mode is active.
    pub sync: Option<SyncKey>,
}

/// A member that races: what the answers of others are compared with.
#[derive(Clone, Copy)]
pub struct Racer {
    pub me: MemberId,
    /// Where its log ends, if it has one.
    pub end: Option<Lsn>,
    pub priority: i64,
    /// The sync key, where the synchronous mode is active.
    pub sync: Option<SyncKey>,
}

/// The rules by which answers bar, in their order.
#[derive(Clone, Copy)]
pub(crate) enum Rule {
    OtherWrites,
    Ahead,
    Priority,
}
