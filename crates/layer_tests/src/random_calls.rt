//! Random calls of the key store, held against a plain program.

use crate::checks::has;
use crate::clusters::{A, B, C, END, NOW, ask, configuration, info, store_of};
use crate::plain_store::{PlainStore, is_present};
use cluster_config::ConfigText;
use lease_store::Store;
use pat_base::{MemberId, MemberSet, Ticks};
use std::alloc::Global;
use std::process::Abort;
use store_keys::{
    Expected, FailoverKey, HistoryRow, Key, KeyEntry, LeaseTxn, OperatorTxn, Planned, SyncTxn, Txn,
    Value,
};

/// Numbers that follow from a seed.
#[derive(Drop)]
struct Draws {
    state: u64,
}

impl Draws {
    /// A number below 16 that is less than this one, or 0.
    fn below(&mut self, count: u64) -> u64 {
        self.state = self
            .state
            .wrapping_mul(6_364_136_223_846_793_005)
            .wrapping_add(1);
        (self.state >> 40) % count.max(1)
    }

    fn member(&mut self) -> MemberId {
        match self.below(3) {
            0 => A,
            1 => B,
            _ => C,
        }
    }

    /// What a transaction expects of a key: mostly what is there.
    fn revision(&mut self, store: &Store, now: Ticks, key: Key) -> u64 {
        match store.get(now, key) {
            Some(entry) if self.below(6) > 0 => entry.revision,
            _ => self.below(20),
        }
    }

    fn expected(&mut self, store: &Store, now: Ticks, key: Key) -> Expected {
        match store.get(now, key) {
            None => Expected::Absent,
            Some(_) => Expected::Revision(self.revision(store, now, key)),
        }
    }
}

/// A renewal that may carry more.
fn renewal(draws: &mut Draws, store: &Store, now: Ticks) -> Txn {
    let row = HistoryRow {
        timeline: draws.below(3),
        at: END,
        tick: now,
        leader: B,
    };
    Txn::Lease(LeaseTxn::Renew {
        revision: draws.revision(store, now, Key::Leader),
        info: info(),
        ttl: Ticks(draws.below(9)),
        status: if draws.below(2) == 0 { None } else { Some(END) },
        row: if draws.below(2) == 0 { None } else { Some(row) },
        failsafe: if draws.below(2) == 0 {
            None
        } else {
            Some(MemberSet::empty().with(C))
        },
    })
}

fn transaction(
    rt: &impl Abort,
    alloc: Global,
    draws: &mut Draws,
    store: &Store,
    now: Ticks,
) -> Txn {
    let ttl = Ticks(draws.below(9));
    let revision = draws.revision(store, now, Key::Leader);
    let sync = draws.expected(store, now, Key::Sync);
    match draws.below(15) {
        0 => Txn::Touch { info: info(), ttl },
        1 | 2 => Txn::Lease(LeaseTxn::Create {
            info: info(),
            ttl,
            failsafe: None,
            sync: if draws.below(2) == 0 {
                None
            } else {
                Some(sync)
            },
        }),
        3 | 4 => renewal(draws, store, now),
        5 => Txn::Lease(LeaseTxn::Release { revision }),
        6 => Txn::Sync(SyncTxn::Claim { revision, sync }),
        7 => Txn::Sync(SyncTxn::SetSync {
            revision,
            sync,
            standbys: MemberSet::empty().with(B),
            quorum: if draws.below(2) == 0 { None } else { Some(1) },
        }),
        8 => Txn::Sync(SyncTxn::DropSync {
            revision,
            sync: draws.revision(store, now, Key::Sync),
        }),
        9 => Txn::Operators(OperatorTxn::SetFailover {
            failover: switchover(),
            ttl,
        }),
        10 => Txn::Operators(OperatorTxn::DropFailover { revision }),
        11 => Txn::Operators(OperatorTxn::Schedule {
            planned: Planned {
                leader: A,
                candidate: None,
                at: now,
            },
        }),
        12 => Txn::Operators(OperatorTxn::Unschedule {
            scheduled: draws.revision(store, now, Key::Scheduled),
        }),
        13 => Txn::Operators(OperatorTxn::Fire {
            revision,
            scheduled: draws.revision(store, now, Key::Scheduled),
            failover: switchover(),
            ttl,
        }),
        _ => Txn::Operators(OperatorTxn::SetConfig {
            revision: draws.revision(store, now, Key::Config),
            config: configuration(rt, alloc, b"{}"),
        }),
    }
}

/// A switchover from the first member.
fn switchover() -> FailoverKey {
    FailoverKey {
        leader: Some(A),
        candidate: None,
    }
}

/// Whether two values are the same.
fn are_same(told: &Value, wanted: &Value) -> bool {
    match (told, wanted) {
        (Value::Leader(told), Value::Leader(wanted)) => told == wanted,
        (Value::Config(told), Value::Config(wanted)) => told.text() == wanted.text(),
        (Value::Member(told), Value::Member(wanted)) => told == wanted,
        (Value::Failover(told), Value::Failover(wanted)) => told == wanted,
        (Value::Sync(told), Value::Sync(wanted)) => told == wanted,
        (Value::Status(told), Value::Status(wanted)) => told == wanted,
        (Value::History(told), Value::History(wanted)) => told == wanted,
        (Value::Failsafe(told), Value::Failsafe(wanted)) => told == wanted,
        (Value::Scheduled(told), Value::Scheduled(wanted)) => told == wanted,
        _ => false,
    }
}

/// Holds what two stores show at a moment against each other.
fn agree(rt: &impl Abort, store: &Store, plain: &PlainStore, now: Ticks) {
    has(rt, &store.revision(), &plain.revision);
    let entries = store.entries(now).expect(rt, "memory");
    let wanted = plain.pairs.iter().filter(|pair| is_present(now, &pair.1));
    has(
        rt,
        &entries.len(),
        &wanted.clone().expect(rt, "memory").count(),
    );
    for (told, wanted) in entries.iter().zip(wanted) {
        has(rt, &told.0, &wanted.0);
        let (told, wanted) = (told.1.get(), &wanted.1);
        has(rt, &told.revision, &wanted.revision);
        has(rt, &told.expiry, &wanted.expiry);
        has(rt, &are_same(&told.value, &wanted.value), &true);
    }
}

#[test]
fn random_calls(rt: HostRuntime) {
    let alloc = rt.alloc();
    let mut draws = Draws { state: 7 };
    let mut store = store_of(&rt, alloc, b"{}");
    let first = KeyEntry {
        value: Value::Config(configuration(&rt, alloc, b"{}")),
        revision: 1,
        expiry: None,
    };
    let mut plain = PlainStore {
        pairs: vec![in alloc; (Key::Config, first)].expect(&rt, "memory"),
        revision: 1,
    };
    let mut now = Ticks(0);
    for _ in 0..300 {
        if draws.below(3) == 0 && now < NOW {
            now = Ticks(now.0.saturating_add(1));
        }
        if draws.below(4) == 0 {
            has(&rt, &store.drop_expired(now), &plain.drop_expired(now));
        }
        let by = draws.member();
        let txn = transaction(&rt, alloc, &mut draws, &store, now);
        let wanted = plain.apply(&rt, now, by, &txn);
        has(&rt, &ask(&rt, &mut store, now, by, txn), &wanted);
        agree(&rt, &store, &plain, now);
    }
}
