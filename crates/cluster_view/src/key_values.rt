//! What single keys of a snapshot say.
ghost use Rattle.std.specs.Prelude.{◌≡◌};
ghost use Rattle.cluster_view.specs.KeyValues.{info_by, info_in, config_in, failover_by, failover_in, sync_by, sync_in, status_by, status_in, active_sync_in};

use crate::Snapshot;
use pat_base::{Lsn, MemberId};
use store_keys::{Config, FailoverKey, Key, MemberInfo, SyncKey, Value};

impl Snapshot {
    /// What a member tells of itself. `None` exactly where its key is absent.
    pub fn info(&self, member: MemberId) -> Option<MemberInfo>
        ensures { result ≡ info_in self.now member }
    {
        let found = self.entry(Key::Member(member))?;
        info_by(&found.value)
    }

    /// What the configuration sets.
    pub fn config(&self) -> Config
        ensures { result ≡ config_in self.now }
    {
        self.settings_or(Config::defaults())
    }

    /// The failover or the switchover that is asked for. `None` exactly where the failover key was absent.
    pub fn failover(&self) -> Option<FailoverKey>
        ensures { result ≡ failover_in self.now }
    {
        let found = self.entry(Key::Failover)?;
        failover_by(&found.value)
    }

    /// Who replicates synchronously. `None` exactly where the sync key was absent.
    pub fn sync(&self) -> Option<SyncKey>
        ensures { result ≡ sync_in self.now }
    {
        let found = self.entry(Key::Sync)?;
        sync_by(&found.value)
    }

    /// Where the leader's log ends, as it told last. `None` exactly where the status key was absent.
    pub fn status(&self) -> Option<Lsn>
        ensures { result ≡ status_in self.now }
    {
        let found = self.entry(Key::Status)?;
        status_by(&found.value)
    }

    /// Who replicates synchronously, where the synchronous mode is active. `None` exactly where it is off or the sync key
    /// was absent.
    pub fn active_sync(&self) -> Option<SyncKey>
        ensures { result ≡ active_sync_in self.now }
    {
        if self.config().synchronous_mode {
            self.sync()
        } else {
            None
        }
    }
}

/// What a member tells of itself by this value. `None` exactly where it is none of a member's key.
pub fn info_by(value: &Value) -> Option<MemberInfo>
    ensures { result ≡ info_by value.now }
{
    match value {
        Value::Member(info) => Some(*info),
        _ => None,
    }
}

fn failover_by(value: &Value) -> Option<FailoverKey>
    ensures { result ≡ failover_by value.now }
{
    match value {
        Value::Failover(failover) => Some(*failover),
        _ => None,
    }
}

fn sync_by(value: &Value) -> Option<SyncKey>
    ensures { result ≡ sync_by value.now }
{
    match value {
        Value::Sync(sync) => Some(*sync),
        _ => None,
    }
}

fn status_by(value: &Value) -> Option<Lsn>
    ensures { result ≡ status_by value.now }
{
    match value {
        Value::Status(end) => Some(*end),
        _ => None,
    }
}
