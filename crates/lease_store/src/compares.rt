//! What transactions compare.
ghost use Rattle.std.specs.Prelude.{◌≡◌, ◌++◌, ◌∷◌, [], option_copied};
ghost use Rattle.std.specs.FinMap.{find};
ghost use Rattle.lease_store.specs.KeyOrder.{key_cmp};
ghost use Rattle.lease_store.specs.Keys.{is_present, key_in};
ghost use Rattle.lease_store.specs.Decision.{found_in, compare_if, decision_by, compares_of, lease_compares, operator_compares, sync_compares};
ghost use Rattle.lease_store.specs.Answers.{check_result_of};

use crate::StoreRefusal;
use crate::order::compare;
use pat_base::{Shared, Ticks};
use std::cmp::Ordering;
use store_keys::{Expected, Key, KeyEntry, LeaseTxn, OperatorTxn, SyncTxn, Txn};

/// Whether a key of this expiry is present.
pub fn is_present(now: Ticks, expiry: Option<Ticks>) -> bool
    ensures { result ≡ is_present now.0 expiry }
{
    match expiry {
        None => true,
        Some(expiry) => now < expiry,
    }
}

/// The entry of a key, present or not, among pairs in which each key stands once: those of the store, or of a snapshot
/// of it. `None` exactly where it isn't among them.
pub fn key_entry_at(pairs: &[(Key, Shared<KeyEntry>)], key: Key) -> Option<&KeyEntry>
    ensures { option_copied result ≡ find key_cmp key pairs.now }
{
    for (other, stored) in pairs {
        if let Ordering::Equal = compare(key, *other) {
            return Some(stored.get());
        }
    }
    None
}

/// The entry of a key that is present.
pub fn present_at(entries: &[(Key, Shared<KeyEntry>)], now: Ticks, key: Key) -> Option<&KeyEntry>
    ensures { option_copied result ≡ key_in entries.now now.0 key }
{
    let stored = key_entry_at(entries, key)?;
    if is_present(now, stored.expiry) {
        Some(stored)
    } else {
        None
    }
}

/// What a compare of a key finds.
fn found(entries: &[(Key, Shared<KeyEntry>)], now: Ticks, key: Key) -> Expected
    ensures { result ≡ found_in (key_in entries.now now.0 key) }
{
    match present_at(entries, now, key) {
        None => Expected::Absent,
        Some(stored) => Expected::Revision(stored.revision),
    }
}

/// Refuses a key that isn't as it is expected.
fn compare_key(
    entries: &[(Key, Shared<KeyEntry>)],
    now: Ticks,
    key: Key,
    expected: Expected,
) -> Result<(), StoreRefusal>
    ensures { result ≡ check_result_of (decision_by entries.now now.0 ((key, expected) ∷ [])) }
{
    let found = found(entries, now, key);
    if found == expected {
        Ok(())
    } else {
        Err(StoreRefusal::Mismatch { key, found })
    }
}

/// Refuses a leader key that isn't of this revision, and then a sync key that isn't as it is expected.
fn compare_sync(
    entries: &[(Key, Shared<KeyEntry>)],
    now: Ticks,
    revision: u64,
    sync: Expected,
) -> Result<(), StoreRefusal>
    ensures { result ≡ check_result_of (decision_by entries.now now.0 ((Key.Leader, Expected.Revision revision) ∷ (Key.Sync, sync) ∷ [])) }
{
    compare_key(entries, now, Key::Leader, Expected::Revision(revision))?;
    compare_key(entries, now, Key::Sync, sync)
}

/// Refuses a leader key and then a schedule that aren't of these revisions, and then a failover key that is present.
fn compare_schedule(
    entries: &[(Key, Shared<KeyEntry>)],
    now: Ticks,
    revision: u64,
    scheduled: u64,
) -> Result<(), StoreRefusal>
    ensures { result ≡ check_result_of (decision_by entries.now now.0 ((Key.Leader, Expected.Revision revision) ∷ (Key.Scheduled, Expected.Revision scheduled) ∷ (Key.Failover, Expected.Absent) ∷ [])) }
{
    compare_key(entries, now, Key::Leader, Expected::Revision(revision))?;
    compare_key(entries, now, Key::Scheduled, Expected::Revision(scheduled))?;
    compare_key(entries, now, Key::Failover, Expected::Absent)
}

/// Refuses a key that isn't as it was read, where it was.
fn compare_read(
    entries: &[(Key, Shared<KeyEntry>)],
    now: Ticks,
    key: Key,
    read: Option<Expected>,
) -> Result<(), StoreRefusal>
    ensures { result ≡ check_result_of (decision_by entries.now now.0 (compare_if key read)) }
{
    match read {
        None => Ok(()),
        Some(expected) => compare_key(entries, now, key, expected),
    }
}

/// Refuses a leader key that is present, then a failsafe key and then a sync key that isn't as it was read.
fn compare_absent(
    entries: &[(Key, Shared<KeyEntry>)],
    now: Ticks,
    failsafe: Option<Expected>,
    sync: Option<Expected>,
) -> Result<(), StoreRefusal>
    ensures { result ≡ check_result_of (decision_by entries.now now.0 ((Key.Leader, Expected.Absent) ∷ (compare_if Key.Failsafe failsafe ++ compare_if Key.Sync sync))) }
{
    compare_key(entries, now, Key::Leader, Expected::Absent)?;
    compare_read(entries, now, Key::Failsafe, failsafe)?;
    compare_read(entries, now, Key::Sync, sync)
}

/// Refuses a transaction by the first key that isn't as it expects.
pub fn check(entries: &[(Key, Shared<KeyEntry>)], now: Ticks, txn: &Txn) -> Result<(), StoreRefusal>
    ensures { result ≡ check_result_of (decision_by entries.now now.0 (compares_of txn.now)) }
{
    match txn {
        Txn::Touch { .. } => Ok(()),
        Txn::Lease(txn) => check_lease(entries, now, txn),
        Txn::Sync(txn) => check_sync(entries, now, txn),
        Txn::Operators(txn) => check_operator(entries, now, txn),
    }
}

fn check_lease(
    entries: &[(Key, Shared<KeyEntry>)],
    now: Ticks,
    txn: &LeaseTxn,
) -> Result<(), StoreRefusal>
    ensures { result ≡ check_result_of (decision_by entries.now now.0 (lease_compares txn.now)) }
{
    match txn {
        LeaseTxn::Create { failsafe, sync, .. } => compare_absent(entries, now, *failsafe, *sync),
        LeaseTxn::Renew { revision, .. } | LeaseTxn::Release { revision } => {
            compare_key(entries, now, Key::Leader, Expected::Revision(*revision))
        }
    }
}

fn check_sync(
    entries: &[(Key, Shared<KeyEntry>)],
    now: Ticks,
    txn: &SyncTxn,
) -> Result<(), StoreRefusal>
    ensures { result ≡ check_result_of (decision_by entries.now now.0 (sync_compares txn.now)) }
{
    match txn {
        SyncTxn::Claim { revision, sync } | SyncTxn::SetSync { revision, sync, .. } => {
            compare_sync(entries, now, *revision, *sync)
        }
        SyncTxn::DropSync { revision, sync } => {
            compare_sync(entries, now, *revision, Expected::Revision(*sync))
        }
    }
}

fn check_operator(
    entries: &[(Key, Shared<KeyEntry>)],
    now: Ticks,
    txn: &OperatorTxn,
) -> Result<(), StoreRefusal>
    ensures { result ≡ check_result_of (decision_by entries.now now.0 (operator_compares txn.now)) }
{
    match txn {
        OperatorTxn::SetFailover { .. } => {
            compare_key(entries, now, Key::Failover, Expected::Absent)
        }
        OperatorTxn::DropFailover { revision } => {
            compare_key(entries, now, Key::Leader, Expected::Revision(*revision))
        }
        OperatorTxn::SetConfig { revision, .. } => {
            compare_key(entries, now, Key::Config, Expected::Revision(*revision))
        }
        OperatorTxn::Schedule { .. } => compare_key(entries, now, Key::Scheduled, Expected::Absent),
        OperatorTxn::Unschedule { scheduled } => {
            compare_key(entries, now, Key::Scheduled, Expected::Revision(*scheduled))
        }
        OperatorTxn::Fire {
            revision,
            scheduled,
            ..
        } => compare_schedule(entries, now, *revision, *scheduled),
    }
}
