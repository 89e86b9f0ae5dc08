//! What granted transactions write.
ghost use Rattle.std.specs.Prelude.{◌≡◌, ◌≤◌, ◌<◌, ◌+◌, ◌++◌, ◌∷◌, List, [], ◌^◌, Some, None, IsTrue, IfOk, OnOk, OnErr};
ghost use Rattle.std.specs.FinMap.{find};
ghost use Rattle.lease_store.specs.Expiries.{AreExpiriesOf};
ghost use Rattle.lease_store.specs.Kept.{IsKept};
ghost use Rattle.lease_store.specs.KeyOrder.{key_cmp};
ghost use Rattle.lease_store.specs.Writes.{Leases as LeasesKey, Extends, Sets, writes_of, pairs_over, puts_of, puts_of_all, deleted_key, without_if, extended_expiry, ttl_of, lease_ttl, operator_ttl, lease_writes, sync_writes, operator_writes, is_lease, status_writes, row_writes, failsafe_writes, sync_value};
ghost use Rattle.pat_base.specs.Moments.{latest};

use crate::compares::key_entry_at;
use crate::entries::{Entries, delete, put_all};
use crate::expiries::Expiries;
use pat_base::{Lsn, MemberId, MemberSet, Shared, Ticks};
use std::alloc::AllocError;
use store_keys::{
    ConfigValue, HistoryRow, Key, KeyEntry, LeaseTxn, MemberInfo, OperatorTxn, SyncKey, SyncTxn,
    Txn, Value,
};

/// The most keys that one transaction writes.
const MOST: usize = 5;

/// What a grant gives to all its writes: its revision, and its moment.
#[derive(Clone, Copy)]
pub struct Stamp {
    pub revision: u64,
    pub at: Ticks,
}

/// Whether a transaction gives its sender the lease of the leader key.
pub fn is_lease(txn: &Txn) -> bool
    ensures { result ≡ is_lease txn.now }
{
    matches!(
        txn,
        Txn::Lease(LeaseTxn::Create { .. }) | Txn::Lease(LeaseTxn::Renew { .. })
    )
}

/// The key that a transaction takes out, if it takes one out.
fn deleted_key(txn: &Txn) -> Option<Key>
    ensures { result ≡ deleted_key txn.now }
{
    match txn {
        Txn::Lease(LeaseTxn::Release { .. }) => Some(Key::Leader),
        Txn::Sync(SyncTxn::DropSync { .. }) => Some(Key::Sync),
        Txn::Operators(OperatorTxn::DropFailover { .. }) => Some(Key::Failover),
        Txn::Operators(OperatorTxn::Unschedule { .. } | OperatorTxn::Fire { .. }) => {
            Some(Key::Scheduled)
        }
        Txn::Touch { .. }
        | Txn::Lease(LeaseTxn::Create { .. })
        | Txn::Lease(LeaseTxn::Renew { .. })
        | Txn::Sync(SyncTxn::Claim { .. })
        | Txn::Sync(SyncTxn::SetSync { .. })
        | Txn::Operators(OperatorTxn::SetFailover { .. })
        | Txn::Operators(OperatorTxn::SetConfig { .. })
        | Txn::Operators(OperatorTxn::Schedule { .. }) => None,
    }
}

/// Writes what a transaction of a member writes, and keeps what holds of the pairs of every store and of the set of their
/// expiries. It fails only for want of memory, and then changes nothing.
pub fn grant(
    entries: &mut Entries,
    expiries: &mut Expiries,
    stamp: Stamp,
    by: MemberId,
    txn: &Txn,
) -> Result<(), AllocError>
    requires kept { IsKept entries.old.items }
    requires expiries { AreExpiriesOf entries.old.items expiries.old.items }
    requires moment { stamp.at.0 ≤ latest }
    requires span { ttl_of txn.now ≤ 2 ^ 40 }
    ensures entries { OnOk result (entries.new.items ≡ pairs_over stamp.revision stamp.at.0 entries.old.items (writes_of by txn.now)) }
    ensures kept { IsKept entries.new.items }
    ensures expiries { AreExpiriesOf entries.new.items expiries.new.items }
    ensures err { OnErr result (entries.new.items ≡ entries.old.items) }
{
    let puts = puts_of(entries, stamp, by, txn)?;
    put_all(entries, expiries, puts)?;
    take_out(entries, expiries, deleted_key(txn));
    Ok(())
}

/// Holds nothing at a key from now on, if there is one to take out.
fn take_out(entries: &mut Entries, expiries: &mut Expiries, key: Option<Key>)
    requires expiries { AreExpiriesOf entries.old.items expiries.old.items }
    ensures entries { entries.new.items ≡ without_if key entries.old.items }
    ensures expiries { AreExpiriesOf entries.new.items expiries.new.items }
{
    if let Some(key) = key {
        delete(entries, expiries, key);
    }
}

/// What a transaction of a member puts at the keys that it writes. It fails only for want of memory.
fn puts_of(
    entries: &Entries,
    stamp: Stamp,
    by: MemberId,
    txn: &Txn,
) -> Result<Vec<(Key, Shared<KeyEntry>)>, AllocError>
    requires moment { stamp.at.0 ≤ latest }
    requires span { ttl_of txn.now ≤ 2 ^ 40 }
    ensures { IfOk result (λ puts. puts.items ≡ puts_of_all stamp.revision stamp.at.0 entries.now.items (writes_of by txn.now)) }
{
    let mut puts = Vec::with_capacity(*entries.allocator(), MOST)?;
    add_puts(&mut puts, entries, stamp, by, txn)?;
    Ok(puts)
}

/// Adds what a transaction of a member puts at the keys that it writes, where nothing is put yet.
fn add_puts(
    puts: &mut Vec<(Key, Shared<KeyEntry>)>,
    entries: &Entries,
    stamp: Stamp,
    by: MemberId,
    txn: &Txn,
) -> Result<(), AllocError>
    requires none { puts.old.items ≡ [] }
    requires moment { stamp.at.0 ≤ latest }
    requires span { ttl_of txn.now ≤ 2 ^ 40 }
    ensures { OnOk result (puts.new.items ≡ puts_of_all stamp.revision stamp.at.0 entries.now.items (writes_of by txn.now)) }
{
    match txn {
        Txn::Touch { info, ttl } => tell(puts, stamp, by, *info, *ttl),
        Txn::Lease(txn) => add_lease_puts(puts, entries, stamp, by, txn),
        Txn::Sync(txn) => add_sync_puts(puts, stamp, by, txn),
        Txn::Operators(txn) => add_operator_puts(puts, stamp, txn),
    }
}

fn add_lease_puts(
    puts: &mut Vec<(Key, Shared<KeyEntry>)>,
    entries: &Entries,
    stamp: Stamp,
    by: MemberId,
    txn: &LeaseTxn,
) -> Result<(), AllocError>
    requires none { puts.old.items ≡ [] }
    requires moment { stamp.at.0 ≤ latest }
    requires span { lease_ttl txn.now ≤ 2 ^ 40 }
    ensures { OnOk result (puts.new.items ≡ puts_of_all stamp.revision stamp.at.0 entries.now.items (lease_writes by txn.now)) }
{
    match txn {
        LeaseTxn::Create { info, ttl, .. } => {
            lease(puts, stamp, Key::Leader, Value::Leader(by), *ttl)?;
            tell(puts, stamp, by, *info, *ttl)
        }
        LeaseTxn::Renew {
            info,
            ttl,
            status,
            row,
            failsafe,
            ..
        } => {
            renew(puts, entries, stamp, *ttl)?;
            tell(puts, stamp, by, *info, *ttl)?;
            set_status(puts, stamp, *status)?;
            set_row(puts, stamp, *row)?;
            set_failsafe(puts, stamp, *failsafe)
        }
        LeaseTxn::Release { .. } => Ok(()),
    }
}

fn add_sync_puts(
    puts: &mut Vec<(Key, Shared<KeyEntry>)>,
    stamp: Stamp,
    by: MemberId,
    txn: &SyncTxn,
) -> Result<(), AllocError>
    requires none { puts.old.items ≡ [] }
    ensures { OnOk result ((pairs : List (Key × KeyEntry)) → puts.new.items ≡ puts_of_all stamp.revision stamp.at.0 pairs (sync_writes by txn.now)) }
{
    match txn {
        SyncTxn::Claim { .. } => set_sync(puts, stamp, by, MemberSet::empty(), 0),
        SyncTxn::SetSync {
            standbys,
            quorum,
            ..
        } => set_sync(puts, stamp, by, *standbys, quorum.unwrap_or(0)),
        SyncTxn::DropSync { .. } => Ok(()),
    }
}

fn add_operator_puts(
    puts: &mut Vec<(Key, Shared<KeyEntry>)>,
    stamp: Stamp,
    txn: &OperatorTxn,
) -> Result<(), AllocError>
    requires none { puts.old.items ≡ [] }
    requires moment { stamp.at.0 ≤ latest }
    requires span { operator_ttl txn.now ≤ 2 ^ 40 }
    ensures { OnOk result ((pairs : List (Key × KeyEntry)) → puts.new.items ≡ puts_of_all stamp.revision stamp.at.0 pairs (operator_writes txn.now)) }
{
    match txn {
        OperatorTxn::SetFailover { failover, ttl } | OperatorTxn::Fire { failover, ttl, .. } => {
            lease(puts, stamp, Key::Failover, Value::Failover(*failover), *ttl)
        }
        OperatorTxn::DropFailover { .. } | OperatorTxn::Unschedule { .. } => Ok(()),
        OperatorTxn::SetConfig { config, .. } => set_config(puts, stamp, config),
        OperatorTxn::Schedule { planned } => {
            set(puts, stamp, Key::Scheduled, Value::Scheduled(*planned))
        }
    }
}

/// Adds what a member tells of itself.
fn tell(
    puts: &mut Vec<(Key, Shared<KeyEntry>)>,
    stamp: Stamp,
    by: MemberId,
    info: MemberInfo,
    ttl: Ticks,
) -> Result<(), AllocError>
    requires { stamp.at.0 + ttl.0 < 2 ^ 64 }
    ensures { OnOk result (puts.new.items ≡ puts.old.items ++ puts_of stamp.revision stamp.at.0 [] (LeasesKey (Key.Member by) (Value.Member info) ttl)) }
{
    lease(puts, stamp, Key::Member(by), Value::Member(info), ttl)
}

fn set_config(
    puts: &mut Vec<(Key, Shared<KeyEntry>)>,
    stamp: Stamp,
    config: &ConfigValue,
) -> Result<(), AllocError>
    ensures { OnOk result (puts.new.items ≡ puts.old.items ++ puts_of stamp.revision stamp.at.0 [] (Sets Key.Config (Value.Config config.now))) }
{
    let config = config.try_clone()?;
    set(puts, stamp, Key::Config, Value::Config(config))
}

/// Adds a key with this value and this expiry, of the revision of the grant.
fn add(
    puts: &mut Vec<(Key, Shared<KeyEntry>)>,
    stamp: Stamp,
    key: Key,
    value: Value,
    expiry: Option<Ticks>,
) -> Result<(), AllocError>
    ensures { OnOk result (puts.new.items ≡ puts.old.items ++ (key, record { value = value; revision = stamp.revision; expiry = expiry }) ∷ []) }
{
    let stored = KeyEntry {
        value,
        revision: stamp.revision,
        expiry,
    };
    puts.push((key, Shared::new(*puts.allocator(), stored)?))?;
    Ok(())
}

/// Adds a key with a lease of this span.
fn lease(
    puts: &mut Vec<(Key, Shared<KeyEntry>)>,
    stamp: Stamp,
    key: Key,
    value: Value,
    ttl: Ticks,
) -> Result<(), AllocError>
    requires { stamp.at.0 + ttl.0 < 2 ^ 64 }
    ensures { OnOk result (puts.new.items ≡ puts.old.items ++ puts_of stamp.revision stamp.at.0 [] (LeasesKey key value ttl)) }
{
    add(puts, stamp, key, value, Some(stamp.at + ttl))
}

/// The later of an expiry and a moment.
fn extended_expiry(until: Ticks, expiry: Option<Ticks>) -> Option<Ticks>
    ensures { result ≡ extended_expiry until.0 expiry }
{
    match expiry {
        None => None,
        Some(expiry) => Some(expiry.max(until)),
    }
}

/// Adds the leader key with its lease extended by this span, where the key has an entry.
fn renew(
    puts: &mut Vec<(Key, Shared<KeyEntry>)>,
    entries: &Entries,
    stamp: Stamp,
    ttl: Ticks,
) -> Result<(), AllocError>
    requires { stamp.at.0 + ttl.0 < 2 ^ 64 }
    ensures { OnOk result (puts.new.items ≡ puts.old.items ++ puts_of stamp.revision stamp.at.0 entries.now.items (Extends Key.Leader ttl)) }
{
    let Some(stored) = key_entry_at(entries, Key::Leader) else {
        return Ok(());
    };
    let expiry = extended_expiry(stamp.at + ttl, stored.expiry);
    let value = stored.value.try_clone()?;
    add(puts, stamp, Key::Leader, value, expiry)
}

/// Adds a key without a lease.
fn set(
    puts: &mut Vec<(Key, Shared<KeyEntry>)>,
    stamp: Stamp,
    key: Key,
    value: Value,
) -> Result<(), AllocError>
    ensures { OnOk result (puts.new.items ≡ puts.old.items ++ puts_of stamp.revision stamp.at.0 [] (Sets key value)) }
{
    add(puts, stamp, key, value, None)
}

fn set_sync(
    puts: &mut Vec<(Key, Shared<KeyEntry>)>,
    stamp: Stamp,
    leader: MemberId,
    standbys: MemberSet,
    quorum: u8,
) -> Result<(), AllocError>
    ensures { OnOk result (puts.new.items ≡ puts.old.items ++ puts_of stamp.revision stamp.at.0 [] (Sets Key.Sync (sync_value leader standbys quorum))) }
{
    set(
        puts,
        stamp,
        Key::Sync,
        Value::Sync(SyncKey {
            leader,
            standbys,
            quorum,
        }),
    )
}

/// Adds the leader's position, where there is one.
fn set_status(
    puts: &mut Vec<(Key, Shared<KeyEntry>)>,
    stamp: Stamp,
    status: Option<Lsn>,
) -> Result<(), AllocError>
    ensures { OnOk result (puts.new.items ≡ puts.old.items ++ puts_of_all stamp.revision stamp.at.0 [] (status_writes status)) }
{
    match status {
        None => Ok(()),
        Some(end) => set(puts, stamp, Key::Status, Value::Status(end)),
    }
}

/// Adds a row of the history, where there is one.
fn set_row(
    puts: &mut Vec<(Key, Shared<KeyEntry>)>,
    stamp: Stamp,
    row: Option<HistoryRow>,
) -> Result<(), AllocError>
    ensures { OnOk result (puts.new.items ≡ puts.old.items ++ puts_of_all stamp.revision stamp.at.0 [] (row_writes row)) }
{
    match row {
        None => Ok(()),
        Some(row) => set(puts, stamp, Key::History(row.timeline), Value::History(row)),
    }
}

/// Adds the members that the leader may ask, where there are any to write.
fn set_failsafe(
    puts: &mut Vec<(Key, Shared<KeyEntry>)>,
    stamp: Stamp,
    failsafe: Option<MemberSet>,
) -> Result<(), AllocError>
    ensures { OnOk result (puts.new.items ≡ puts.old.items ++ puts_of_all stamp.revision stamp.at.0 [] (failsafe_writes failsafe)) }
{
    match failsafe {
        None => Ok(()),
        Some(members) => set(puts, stamp, Key::Failsafe, Value::Failsafe(members)),
    }
}
