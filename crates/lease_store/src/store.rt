//! The store.
ghost use Rattle.std.specs.Prelude.{ℕ, ◌≡◌, ◌≤◌, ◌<◌, ◌+◌, ◌^◌, ◌↔◌, ◌≢◌, [], IsTrue, IsSome, IsNone, IfSome, Some, None, OnOk, OnErr, IfOk, option_copied, Err};
ghost use Rattle.std.specs.FinMap.{find, is_sorted};
ghost use Rattle.lease_store.specs.Answers.{present_pairs, keys_kept, holder_lost, expired_holder, expired_keys};
ghost use Rattle.store_keys.specs.declared.txn.Expected.{Expected};
ghost use Rattle.lease_store.specs.Decision.{Grant, Refusal, decision_on};
ghost use Rattle.lease_store.specs.KeyOrder.{key_cmp};
ghost use Rattle.lease_store.specs.Keys.{Keys, key_at, first_keys};
ghost use Rattle.lease_store.specs.Kept.{AreOfKind};
ghost use Rattle.lease_store.specs.Kinds.{IsOfKind};
ghost use Rattle.lease_store.specs.Writes.{keys_after_grant, is_lease, ttl_of};
ghost use Rattle.pat_base.specs.Moments.{latest};

use crate::compares::{check, is_present, key_entry_at, present_at};
use crate::copies::{Copies, forget_ended, told};
use crate::entries::{Entries, drop_absent};
use crate::expiries::{Expiries, first_expiry, has_come};
use crate::walks::{absent_keys, copies_of_present};
use crate::writes::{Stamp, grant, is_lease};
use crate::{Granted, StoreRefusal};
use pat_base::{MemberId, Shared, Ticks};
use std::alloc::{AllocError, Global};
use std::marker::Model;
use store_keys::{ConfigValue, Key, KeyEntry, Txn, Value};

/// The key store that a cluster shares, as Patroni's distributed configuration store (DCS): what it holds at each key, and
/// the last revision that it granted. Revisions count its granted writes, from 1.
///
/// A key with a lease is absent from its expiry on, by the clock of whoever calls.
#[derive(Drop)]
pub struct Store {
    entries: Entries,
    /// Exactly the keys that have a lease, each with when it ends.
    expiries: Expiries,
    revision: u64,
    /// Copies of all pairs, where they were told and nothing has changed since.
    copies: Option<Copies>,
}

impl Model for Store {
    ghost use Rattle.lease_store.specs.Keys.{Keys};
    ghost use Rattle.lease_store.specs.Copied.{AreCopies};
    ghost use Rattle.lease_store.specs.Expiries.{AreExpiriesOf};
    ghost use Rattle.lease_store.specs.Kept.{IsKept};

    ghost Value = { Keys };

    ghost view = { λ s. record { revision = s.revision; pairs = s.entries.items } };

    ghost invariant = { λ s. IsKept s.entries.items × AreExpiriesOf s.entries.items s.expiries.items × AreCopies s.entries.items s.copies };
}

impl Store {
    /// The store of a configuration, which is its first granted write. It fails only for want of memory.
    pub fn new(alloc: Global, config: ConfigValue) -> Result<Store, AllocError>
        ensures { IfOk result (λ store. store ≡ first_keys config) }
    {
        let mut entries = Vec::new(alloc);
        let stored = KeyEntry {
            value: Value::Config(config),
            revision: 1,
            expiry: None,
        };
        entries.push((Key::Config, Shared::new(alloc, stored)?))?;
        Ok(Store {
            entries,
            expiries: Vec::new(alloc),
            revision: 1,
            copies: None,
        })
    }

    /// The last granted revision.
    pub fn revision(&self) -> u64
        ensures { result ≡ self.now.revision }
    {
        self.revision
    }

    /// The entry of a key that is present at this moment, with a value of its kind. `None` exactly where the key is absent.
    pub fn get(&self, now: Ticks, key: Key) -> Option<&KeyEntry>
        ensures value { option_copied result ≡ key_at self.now now.0 key }
        ensures kind { IfSome result (λ stored. IsOfKind key stored.now.value) }
    {
        present_at(&self.entries, now, key)
    }

    /// Decides at a moment on a request of a member, and writes what it writes where it is granted, all under the next
    /// revision. `Mismatch` comes exactly where a compare differs, and tells the first that does; `Memory` only for want
    /// of memory. A refusal changes nothing.
    ///
    /// So that no sum passes 2^64, it wants fewer than 2^60 grants before, a moment of at most 2^62 ticks, and leases of
    /// at most 2^40 ticks.
    pub fn apply(&mut self, now: Ticks, by: MemberId, txn: &Txn) -> Result<Granted, StoreRefusal>
        requires revision { self.old.revision < 2 ^ 60 }
        requires moment { now.0 ≤ latest }
        requires span { ttl_of txn.now ≤ 2 ^ 40 }
        ensures granted { OnOk result (decision_on self.old now.0 txn.now ≡ Grant) }
        ensures written { OnOk result (self.new ≡ keys_after_grant self.old now.0 by txn.now) }
        ensures told { IfOk result (λ granted. granted ≡ record { revision = self.old.revision + 1; by = by; leased = is_lease txn.now }) }
        ensures refused { (key : Key) (found : Expected) → (result ≡ Err (StoreRefusal.Mismatch key found)) ↔ (decision_on self.old now.0 txn.now ≡ Refusal key found) }
        ensures err { OnErr result (self.new ≡ self.old) }
    {
        check(&self.entries, now, txn)?;
        let stamp = Stamp {
            revision: self.revision + 1,
            at: now,
        };
        self.copies = None;
        grant(&mut self.entries, &mut self.expiries, stamp, by, txn)?;
        self.revision += 1;
        Ok(Granted::of(self.revision, by, is_lease(txn)))
    }

    /// The keys that have an entry and are absent at this moment, in the order of `Key`. It fails only for want of memory.
    pub fn expired(&self, now: Ticks) -> Result<Vec<Key>, AllocError>
        ensures { IfOk result (λ keys. keys.items ≡ expired_keys self.now now.0) }
    {
        if has_come(&self.expiries, now) {
            return absent_keys(*self.entries.allocator(), &self.entries, now);
        }
        Ok(Vec::new(*self.entries.allocator()))
    }

    /// When the next key expires, but at most a given moment: no key that has an entry is absent before it, and where it is less than the
    /// most one is at it.
    pub fn next_expiry(&self, most: Ticks) -> Ticks
        ensures most { result.0 ≤ most.0 }
        ensures before { (now : ℕ) → now < result.0 → expired_keys self.now now ≡ [] }
        ensures least { result.0 < most.0 → expired_keys self.now result.0 ≢ [] }
    {
        first_expiry(&self.expiries, most)
    }

    /// The holder of the leader key, where that key has an entry and is absent at this moment.
    pub fn expired_holder(&self, now: Ticks) -> Option<MemberId>
        ensures { result ≡ expired_holder self.now now.0 }
    {
        expired_holder(&self.entries, now)
    }

    /// Drops every key that is absent at this moment, which changes nothing of what is present from then on. Answers the
    /// holder of the leader key where that one was dropped.
    pub fn drop_expired(&mut self, now: Ticks) -> Option<MemberId>
        ensures state { self.new ≡ keys_kept self.old now.0 }
        ensures holder { result ≡ expired_holder self.old now.0 }
        ensures dropped { IsSome result ↔ (IsSome (find key_cmp Key.Leader self.old.pairs) × IsNone (key_at self.old now.0 Key.Leader)) }
        ensures same { (later : ℕ) (key : Key) → now.0 ≤ later → key_at self.new later key ≡ key_at self.old later key }
    {
        let holder = expired_holder(&self.entries, now);
        forget_ended(&self.expiries, &mut self.copies, now);
        drop_absent(&mut self.entries, &mut self.expiries, now);
        holder
    }

    /// All present keys in the order of `Key`, each once and with a value of its kind, the configuration always among
    /// them. It fails only for want of memory.
    pub fn entries(&self, now: Ticks) -> Result<Vec<(Key, Shared<KeyEntry>)>, AllocError>
        ensures pairs { IfOk result (λ entries. entries.items ≡ present_pairs now.0 self.now.pairs) }
        ensures found { IfOk result (λ entries. (key : Key) → find key_cmp key entries.items ≡ key_at self.now now.0 key) }
        ensures order { IfOk result (λ entries. IsTrue (is_sorted key_cmp entries.items)) }
        ensures kinds { IfOk result (λ entries. AreOfKind entries.items) }
        ensures config { IfOk result (λ entries. IsSome (find key_cmp Key.Config entries.items)) }
    {
        copies_of_present(*self.entries.allocator(), &self.entries, now)
    }

    /// The same, to be shared. Where nothing has changed since they were told last, they are told again.
    pub fn share_entries(&mut self, now: Ticks) -> Result<Copies, AllocError>
        ensures same { self.new ≡ self.old }
        ensures pairs { IfOk result (λ entries. entries.items ≡ present_pairs now.0 self.old.pairs) }
        ensures order { IfOk result (λ entries. IsTrue (is_sorted key_cmp entries.items)) }
        ensures kinds { IfOk result (λ entries. AreOfKind entries.items) }
        ensures config { IfOk result (λ entries. IsSome (find key_cmp Key.Config entries.items)) }
    {
        told(
            *self.entries.allocator(),
            &self.entries,
            &self.expiries,
            &mut self.copies,
            now,
        )
    }
}

/// The holder of the leader key, where that key has an entry and is absent.
fn expired_holder(entries: &[(Key, Shared<KeyEntry>)], now: Ticks) -> Option<MemberId>
    ensures { result ≡ holder_lost now.0 (find key_cmp Key.Leader entries.now) }
{
    let stored = key_entry_at(entries, Key::Leader)?;
    if is_present(now, stored.expiry) {
        return None;
    }
    stored.value.holder()
}
