//! Snapshots of the key store.
ghost use Rattle.std.specs.Prelude.{◌≡◌, IsSome, IsTrue, IfOk, option_copied};
ghost use Rattle.std.specs.FinMap.{find, is_sorted};
ghost use Rattle.lease_store.specs.Kept.{AreOfKind};
ghost use Rattle.lease_store.specs.InKeyOrder.{in_key_order};
ghost use Rattle.lease_store.specs.KeyOrder.{key_cmp};
ghost use Rattle.store_keys.specs.declared.key.Key.TheVariants as keys;
ghost use Rattle.cluster_view.specs.Snapshots.{IsRead, entry_in, leader_by, leader_in, settings_by, settings_of_entry, settings_in, failsafe_by, failsafe_in, has_row};

use lease_store::{Copies, in_key_order, key_entry_at};
use pat_base::{Host, MemberId, MemberSet, Name, Shared};
use std::alloc::{AllocError, Global};
use std::marker::Model;
use store_keys::{Config, Key, KeyEntry, Value};

/// What one read of the key store gives: the cluster's name, the names and hosts of all members in the order of the script, and
/// each key that was present, with its value and its revision.
#[derive(Drop)]
pub struct Snapshot {
    scope: Name,
    members: Shared<Vec<(Name, Host)>>,
    entries: Copies,
}

impl Model for Snapshot {
    ghost use Rattle.cluster_view.specs.Snapshots.{SnapshotFacts, IsRead};

    ghost Value = { SnapshotFacts };

    ghost view = { λ s. record { scope = s.scope; members = s.members.items; entries = s.entries.items } };

    ghost invariant = { λ s. IsRead s.entries.items };
}

/// Who leads, by which revision of the leader key.
#[derive(Clone, Copy, PartialEq, Eq)]
pub struct LeaderEntry {
    pub holder: MemberId,
    pub revision: u64,
}

impl Snapshot {
    /// The snapshot of these entries, which stand in any order: each is of its key's kind, and the configuration is among
    /// them. Of several of one key the first counts. It fails only for want of memory.
    pub fn read(
        alloc: Global,
        scope: Name,
        members: &[(Name, Host)],
        entries: Vec<(Key, Shared<KeyEntry>)>,
    ) -> Result<Snapshot, AllocError>
        requires kinds { AreOfKind entries.items }
        requires config { IsSome (find key_cmp keys.Config entries.items) }
        ensures snapshot { IfOk result (λ snapshot. snapshot ≡ record { scope = scope; members = members.now; entries = in_key_order entries.items }) }
        ensures in_order { IsTrue (is_sorted key_cmp entries.items) → in_key_order entries.items ≡ entries.items }
    {
        Ok(Snapshot {
            scope,
            members: Shared::new(alloc, Vec::from_slice(alloc, members)?)?,
            entries: Shared::new(alloc, in_key_order(alloc, entries)?)?,
        })
    }

    /// The snapshot of entries as the key store tells them, which it shares, as it does the members. It fails only where owners can't be
    /// counted any more.
    pub fn sharing(
        scope: Name,
        members: &Shared<Vec<(Name, Host)>>,
        entries: Copies,
    ) -> Result<Snapshot, AllocError>
        requires { IsRead entries.items }
        ensures { IfOk result (λ snapshot. snapshot ≡ record { scope = scope; members = members.now.items; entries = entries.items }) }
    {
        Ok(Snapshot {
            scope,
            members: members.try_clone()?,
            entries,
        })
    }

    /// The cluster's name.
    pub fn scope(&self) -> Name
        ensures { result ≡ self.now.scope }
    {
        self.scope
    }

    /// The names and hosts of all members, in the order of the script.
    pub fn members(&self) -> &[(Name, Host)]
        ensures { result.now ≡ self.now.members }
    {
        self.members.get()
    }

    /// The keys that were present, in their order, each once and with a value of its kind, the configuration always among them.
    pub fn entries(&self) -> &[(Key, Shared<KeyEntry>)]
        ensures entries { result.now ≡ self.now.entries }
        ensures read { IsRead self.now.entries }
    {
        self.entries.get()
    }

    /// The entry of a key: its value and its revision. `None` exactly where the key was absent.
    pub fn entry(&self, key: Key) -> Option<&KeyEntry>
        ensures { option_copied result ≡ entry_in key self.now }
    {
        key_entry_at(self.entries.get(), key)
    }

    /// Who leads. `None` exactly where the leader key was absent.
    pub fn leader(&self) -> Option<LeaderEntry>
        ensures { result ≡ leader_in self.now }
    {
        let found = self.entry(Key::Leader)?;
        leader_by(found.revision, &found.value)
    }

    /// What the configuration sets; these settings where there is none.
    pub fn settings_or(&self, settings: Config) -> Config
        ensures { result ≡ settings_in settings self.now }
    {
        settings_of_entry(settings, self.entry(Key::Config))
    }

    /// The members that the failsafe key lists. `None` exactly where the key was absent.
    pub fn failsafe(&self) -> Option<MemberSet>
        ensures { result ≡ failsafe_in self.now }
    {
        let found = self.entry(Key::Failsafe)?;
        failsafe_by(&found.value)
    }

    /// Whether the history has the row of this timeline.
    pub fn has_row(&self, timeline: u64) -> bool
        ensures { result ≡ has_row timeline self.now }
    {
        self.entry(Key::History(timeline)).is_some()
    }
}

fn leader_by(revision: u64, value: &Value) -> Option<LeaderEntry>
    ensures { result ≡ leader_by revision value.now }
{
    match value {
        Value::Leader(member) => Some(LeaderEntry {
            holder: *member,
            revision,
        }),
        _ => None,
    }
}

fn settings_of_entry(settings: Config, found: Option<&KeyEntry>) -> Config
    ensures { result ≡ settings_of_entry settings (option_copied found.entry) }
{
    match found {
        None => settings,
        Some(found) => settings_by(settings, &found.value),
    }
}

fn settings_by(settings: Config, value: &Value) -> Config
    ensures { result ≡ settings_by settings value.now }
{
    match value {
        Value::Config(config) => config.config(),
        _ => settings,
    }
}

fn failsafe_by(value: &Value) -> Option<MemberSet>
    ensures { result ≡ failsafe_by value.now }
{
    match value {
        Value::Failsafe(members) => Some(*members),
        _ => None,
    }
}
