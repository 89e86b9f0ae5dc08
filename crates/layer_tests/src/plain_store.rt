//! The key store as a plain program, which the store is held against: a vector of pairs in the order of their keys.

use lease_store::StoreRefusal;
use pat_base::{MemberId, MemberSet, Ticks};
use std::process::Abort;
use store_keys::{Expected, Key, KeyEntry, LeaseTxn, OperatorTxn, SyncKey, SyncTxn, Txn, Value};

/// A store that is searched from its front.
#[derive(Drop)]
pub(crate) struct PlainStore {
    pub(crate) pairs: Vec<(Key, KeyEntry)>,
    pub(crate) revision: u64,
}

/// When a lease ends that begins now.
fn until(now: Ticks, ttl: Ticks) -> Ticks {
    Ticks(now.0.saturating_add(ttl.0))
}

/// Whether an entry is present.
pub(crate) fn is_present(now: Ticks, entry: &KeyEntry) -> bool {
    match entry.expiry {
        None => true,
        Some(expiry) => now < expiry,
    }
}

/// What a transaction compares, in this order.
fn compares(txn: &Txn) -> [Option<(Key, Expected)>; 3] {
    match txn {
        Txn::Touch { .. } => [None, None, None],
        Txn::Lease(LeaseTxn::Create { failsafe, sync, .. }) => [
            Some((Key::Leader, Expected::Absent)),
            failsafe.map(|expected| (Key::Failsafe, expected)),
            sync.map(|expected| (Key::Sync, expected)),
        ],
        Txn::Lease(LeaseTxn::Renew { revision, .. })
        | Txn::Lease(LeaseTxn::Release { revision })
        | Txn::Operators(OperatorTxn::DropFailover { revision }) => {
            [
                Some((Key::Leader, Expected::Revision(*revision))),
                None,
                None,
            ]
        }
        Txn::Sync(SyncTxn::Claim { revision, sync })
        | Txn::Sync(SyncTxn::SetSync { revision, sync, .. }) => [
            Some((Key::Leader, Expected::Revision(*revision))),
            Some((Key::Sync, *sync)),
            None,
        ],
        Txn::Sync(SyncTxn::DropSync { revision, sync }) => [
            Some((Key::Leader, Expected::Revision(*revision))),
            Some((Key::Sync, Expected::Revision(*sync))),
            None,
        ],
        Txn::Operators(OperatorTxn::SetFailover { .. }) => [
            Some((Key::Failover, Expected::Absent)),
            None,
            None,
        ],
        Txn::Operators(OperatorTxn::SetConfig { revision, .. }) => {
            [
                Some((Key::Config, Expected::Revision(*revision))),
                None,
                None,
            ]
        }
        Txn::Operators(OperatorTxn::Schedule { .. }) => {
            [Some((Key::Scheduled, Expected::Absent)), None, None]
        }
        Txn::Operators(OperatorTxn::Unschedule { scheduled }) => [
            Some((Key::Scheduled, Expected::Revision(*scheduled))),
            None,
            None,
        ],
        Txn::Operators(
            OperatorTxn::Fire {
                revision,
                scheduled,
                ..
            },
        ) => [
            Some((Key::Leader, Expected::Revision(*revision))),
            Some((Key::Scheduled, Expected::Revision(*scheduled))),
            Some((Key::Failover, Expected::Absent)),
        ],
    }
}

impl PlainStore {
    fn found(&self, now: Ticks, key: Key) -> Expected {
        for (other, entry) in &self.pairs {
            if *other == key && is_present(now, entry) {
                return Expected::Revision(entry.revision);
            }
        }
        Expected::Absent
    }

    fn check(&self, now: Ticks, txn: &Txn) -> Result<(), StoreRefusal> {
        for compare in compares(txn) {
            if let Some((key, expected)) = compare {
                let found = self.found(now, key);
                if found != expected {
                    return Err(StoreRefusal::Mismatch { key, found });
                }
            }
        }
        Ok(())
    }

    fn put(&mut self, rt: &impl Abort, key: Key, value: Value, expiry: Option<Ticks>) {
        self.delete(key);
        let revision = self.revision;
        let entry = KeyEntry {
            value,
            revision,
            expiry,
        };
        self.pairs.push((key, entry)).expect(rt, "memory");
        self.pairs.sort_by_key(|pair| pair.0).expect(rt, "memory");
    }

    fn delete(&mut self, key: Key) {
        self.pairs.retain(|pair| pair.0 != key);
    }

    fn extend(&mut self, until: Ticks) {
        for (key, entry) in &mut self.pairs {
            if *key == Key::Leader {
                entry.revision = self.revision;
                entry.expiry = entry.expiry.map(|expiry| expiry.max(until));
            }
        }
    }

    /// What `Store::apply` does.
    pub(crate) fn apply(
        &mut self,
        rt: &impl Abort,
        now: Ticks,
        by: MemberId,
        txn: &Txn,
    ) -> Result<u64, StoreRefusal> {
        self.check(now, txn)?;
        self.revision = self.revision.wrapping_add(1);
        self.write(rt, now, by, txn);
        Ok(self.revision)
    }

    fn write(&mut self, rt: &impl Abort, now: Ticks, by: MemberId, txn: &Txn) {
        match txn {
            Txn::Touch { info, ttl } => {
                self.put(
                    rt,
                    Key::Member(by),
                    Value::Member(*info),
                    Some(until(now, *ttl)),
                );
            }
            Txn::Lease(LeaseTxn::Create { info, ttl, .. }) => {
                self.put(rt, Key::Leader, Value::Leader(by), Some(until(now, *ttl)));
                self.put(
                    rt,
                    Key::Member(by),
                    Value::Member(*info),
                    Some(until(now, *ttl)),
                );
            }
            Txn::Lease(
                LeaseTxn::Renew {
                    info,
                    ttl,
                    status,
                    row,
                    failsafe,
                    ..
                },
            ) => {
                self.extend(until(now, *ttl));
                self.put(
                    rt,
                    Key::Member(by),
                    Value::Member(*info),
                    Some(until(now, *ttl)),
                );
                if let Some(end) = *status {
                    self.put(rt, Key::Status, Value::Status(end), None);
                }
                if let Some(row) = *row {
                    self.put(rt, Key::History(row.timeline), Value::History(row), None);
                }
                if let Some(members) = *failsafe {
                    self.put(rt, Key::Failsafe, Value::Failsafe(members), None);
                }
            }
            Txn::Lease(LeaseTxn::Release { .. }) => self.delete(Key::Leader),
            Txn::Sync(SyncTxn::Claim { .. }) => self.put_sync(rt, by, MemberSet::empty(), 0),
            Txn::Sync(
                SyncTxn::SetSync {
                    standbys,
                    quorum,
                    ..
                },
            ) => self.put_sync(rt, by, *standbys, quorum.unwrap_or(0)),
            Txn::Sync(SyncTxn::DropSync { .. }) => self.delete(Key::Sync),
            Txn::Operators(OperatorTxn::SetFailover { failover, ttl }) => {
                self.put(
                    rt,
                    Key::Failover,
                    Value::Failover(*failover),
                    Some(until(now, *ttl)),
                );
            }
            Txn::Operators(OperatorTxn::DropFailover { .. }) => self.delete(Key::Failover),
            Txn::Operators(OperatorTxn::SetConfig { config, .. }) => {
                let config = config.try_clone().expect(rt, "memory");
                self.put(rt, Key::Config, Value::Config(config), None);
            }
            Txn::Operators(OperatorTxn::Schedule { planned }) => {
                self.put(rt, Key::Scheduled, Value::Scheduled(*planned), None);
            }
            Txn::Operators(OperatorTxn::Unschedule { .. }) => self.delete(Key::Scheduled),
            Txn::Operators(OperatorTxn::Fire { failover, ttl, .. }) => {
                self.delete(Key::Scheduled);
                self.put(
                    rt,
                    Key::Failover,
                    Value::Failover(*failover),
                    Some(until(now, *ttl)),
                );
            }
        }
    }

    fn put_sync(&mut self, rt: &impl Abort, leader: MemberId, standbys: MemberSet, quorum: u8) {
        self.put(
            rt,
            Key::Sync,
            Value::Sync(SyncKey {
                leader,
                standbys,
                quorum,
            }),
            None,
        );
    }

    /// What `Store::drop_expired` does.
    pub(crate) fn drop_expired(&mut self, now: Ticks) -> Option<MemberId> {
        let mut holder = None;
        for (key, entry) in &self.pairs {
            if *key == Key::Leader && !is_present(now, entry) {
                holder = entry.value.holder();
            }
        }
        self.pairs.retain(|pair| is_present(now, &pair.1));
        holder
    }
}
