//! What an agent reads of the sync key, and whom commits come to wait for (Patroni documentation, "Replication modes").
ghost use Rattle.std.specs.Prelude.{option_copied, ◌≡◌};
ghost use Rattle.cluster_view.specs.KeyValues.{sync_by};
ghost use Rattle.agent_model.specs.Synchronous.{expected_of, is_named_if, is_strict, may_lead_in_sync, sync_read_by, sync_read_if, sync_read_in, unnamed, waiting_for};

use agent_model::{Knowledge, SyncRead};
use cluster_view::{Snapshot, is_failover_to, is_named};
use pat_base::{MemberId, MemberSet, Required};
use store_keys::{Config, Expected, Key, SyncKey, Value};

/// The sync key that a snapshot has, with its revision.
pub fn sync_read_in(snapshot: &Snapshot) -> Option<SyncRead>
    ensures { result ≡ sync_read_in snapshot.now }
{
    let found = snapshot.entry(Key::Sync)?;
    sync_read_by(found.revision, sync_by(&found.value))
}

/// A sync key that was written under this revision.
fn sync_read_by(revision: u64, key: Option<SyncKey>) -> Option<SyncRead>
    ensures { result ≡ sync_read_by revision key }
{
    match key {
        None => None,
        Some(key) => Some(SyncRead { key, revision }),
    }
}

/// The sync key by a value of it.
fn sync_by(value: &Value) -> Option<SyncKey>
    ensures { result ≡ sync_by value.now }
{
    match value {
        Value::Sync(sync) => Some(*sync),
        _ => None,
    }
}

/// The sync key of the newest snapshot, if there is one.
pub fn sync_read_if(seen: Option<&Snapshot>) -> Option<SyncRead>
    ensures { result ≡ sync_read_if (option_copied seen.entry) }
{
    match seen {
        None => None,
        Some(seen) => sync_read_in(seen),
    }
}

/// What a request expects of a sync key that was read so.
pub fn expected_of(read: Option<SyncRead>) -> Expected
    ensures { result ≡ expected_of read }
{
    match read {
        None => Expected::Absent,
        Some(read) => Expected::Revision(read.revision),
    }
}

/// The key that was read doesn't keep this member from leading.
pub fn is_named_if(me: MemberId, read: Option<SyncRead>) -> bool
    ensures { result ≡ is_named_if me read }
{
    match read {
        None => true,
        Some(read) => is_named(me, read.key),
    }
}

/// In synchronous mode only a member may lead that the sync key names, as the turn read both, or one that a failover by hand names
/// (Patroni documentation, "Switchover and failover endpoints").
pub fn may_lead_in_sync(knows: &Knowledge) -> bool
    ensures { result ≡ may_lead_in_sync knows.now }
{
    if knows.turn_settings.synchronous_mode {
        is_named_if(knows.who.me, knows.turn_sync)
            || is_failover_to(knows.who.me, knows.turn_failover)
    } else {
        true
    }
}

/// Commits wait for some standby in synchronous mode, also where none is named.
fn is_strict(settings: &Config) -> bool
    ensures { result ≡ is_strict settings.now }
{
    settings.synchronous_mode && settings.synchronous_mode_strict
}

/// Whom commits wait for where no standby is named.
pub fn unnamed(settings: &Config) -> Required
    ensures { result ≡ unnamed settings.now }
{
    if is_strict(settings) {
        Required::AnyOne
    } else {
        Required::Nobody
    }
}

/// Whom commits wait for where these standbys are named.
pub fn waiting_for(settings: &Config, standbys: MemberSet) -> Required
    ensures { result ≡ waiting_for settings.now standbys }
{
    if standbys.is_empty() {
        unnamed(settings)
    } else {
        Required::All(standbys)
    }
}
