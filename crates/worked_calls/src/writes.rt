//! Rows that write the key store, as `store a renew 2 status=0/5000000 => revision 3`, and that ask what it has.
ghost use Rattle.std.specs.Prelude.{◌≡◌};
ghost use Rattle.lease_store.specs.Writes.{ttl_of};

use crate::bench::{Bench, TAGS};
use crate::stop::{Stop, known};
use crate::words::{
    first_word, letter, letter_or_none, member, members, moment, number, position,
    position_or_none, ticks,
};
use cluster_config::ConfigText;
use lease_store::StoreRefusal;
use pat_base::{MemberId, Ticks, Word};
use std::alloc::{AllocError, Global};
use store_keys::{
    ConfigValue, Expected, FailoverKey, HistoryRow, Key, LeaseTxn, MemberInfo, OperatorTxn,
    SyncTxn, Txn,
};

/// How long each lease lasts.
const TTL: Ticks = Ticks(300);

/// What a row on the key store is told at the moment.
pub fn told(alloc: Global, bench: &mut Bench, asked: &str) -> Result<String, Stop> {
    let (word, rest) = first_word(asked);
    match word {
        "revision" => Ok(format!(in alloc; "{}", bench.store.revision())?),
        "keys" => Ok(keys(alloc, bench)?),
        "expired" => Ok(expired(alloc, bench)?),
        "drop" => Ok(letter_or_none(alloc, bench.store.drop_expired(bench.now))?),
        "expiry" => Ok(leader_expiry(alloc, bench)?),
        "leader" => Ok(leader_read(alloc, bench)?),
        _ => asked_by(alloc, bench, member(word)?, rest),
    }
}

/// The keys that are present, in order.
fn keys(alloc: Global, bench: &Bench) -> Result<String, AllocError> {
    let mut text = String::new(alloc);
    for pair in &bench.store.entries(bench.now)? {
        let key = pair.0;
        write!(text, "{key} ")?;
    }
    Ok(text)
}

/// How many keys have expired.
fn expired(alloc: Global, bench: &Bench) -> Result<String, AllocError> {
    let count = bench.store.expired(bench.now)?.len();
    format!(in alloc; "{count}")
}

/// When the leader key expires.
fn leader_expiry(alloc: Global, bench: &Bench) -> Result<String, AllocError> {
    match bench.store.get(bench.now, Key::Leader) {
        Some(entry) => moment(alloc, entry.expiry),
        None => String::from_str(alloc, "absent"),
    }
}

/// Who leads by a read of the key store, and by which revision.
fn leader_read(alloc: Global, bench: &Bench) -> Result<String, AllocError> {
    match bench.snapshot(alloc)?.leader() {
        Some(leader) => {
            let (holder, revision) = (letter(leader.holder), leader.revision);
            format!(in alloc; "{holder} by revision {revision}")
        }
        None => String::from_str(alloc, "none"),
    }
}

/// What a member's transaction is answered.
fn asked_by(alloc: Global, bench: &mut Bench, by: MemberId, rest: &str) -> Result<String, Stop> {
    let txn = transaction(alloc, bench, by, rest)?;
    let store = &mut bench.store;
    if store.revision() > 1000 || bench.now > Ticks(2000) || span(&txn) > TTL {
        return Err(Stop::Unknown);
    }
    match store.apply(bench.now, by, &txn) {
        Ok(granted) => {
            let revision = granted.revision();
            Ok(format!(in alloc; "revision {revision}")?)
        }
        Err(StoreRefusal::Mismatch { key, found }) => Ok(format!(in alloc; "{key} {found}")?),
        Err(StoreRefusal::Memory) => Err(Stop::Memory),
    }
}

/// The span of the leases that a transaction writes.
fn span(txn: &Txn) -> Ticks
    ensures { result.0 ≡ ttl_of txn.now }
{
    match txn {
        Txn::Touch { ttl, .. }
        | Txn::Lease(LeaseTxn::Create { ttl, .. })
        | Txn::Lease(LeaseTxn::Renew { ttl, .. })
        | Txn::Operators(OperatorTxn::SetFailover { ttl, .. })
        | Txn::Operators(OperatorTxn::Fire { ttl, .. }) => *ttl,
        Txn::Lease(LeaseTxn::Release { .. })
        | Txn::Sync(SyncTxn::Claim { .. })
        | Txn::Sync(SyncTxn::SetSync { .. })
        | Txn::Sync(SyncTxn::DropSync { .. })
        | Txn::Operators(OperatorTxn::DropFailover { .. })
        | Txn::Operators(OperatorTxn::SetConfig { .. })
        | Txn::Operators(OperatorTxn::Schedule { .. })
        | Txn::Operators(OperatorTxn::Unschedule { .. }) => Ticks(0),
    }
}

/// The transaction of these words, by a member.
fn transaction(alloc: Global, bench: &Bench, by: MemberId, rest: &str) -> Result<Txn, Stop> {
    let (kind, rest) = first_word(rest);
    match kind {
        "touch" => {
            let info = info(bench, by, rest)?;
            Ok(Txn::Touch { info, ttl: TTL })
        }
        "create" => {
            let info = info(bench, by, rest)?;
            Ok(Txn::Lease(LeaseTxn::Create {
                info,
                ttl: TTL,
                failsafe: None,
                sync: None,
            }))
        }
        "renew" => renewal(bench, by, rest),
        "hand-over" => hand_over(rest),
        "configure" => configuration(alloc, rest),
        _ => under_leader_key(kind, rest),
    }
}

fn hand_over(rest: &str) -> Result<Txn, Stop> {
    let (leader, candidate) = first_word(rest);
    let failover = FailoverKey {
        leader: Some(member(leader)?),
        candidate: Some(member(candidate)?),
    };
    Ok(Txn::Operators(OperatorTxn::SetFailover { failover, ttl: TTL }))
}

fn configuration(alloc: Global, rest: &str) -> Result<Txn, Stop> {
    let (revision, config) = first_word(rest);
    let revision = number(revision)?;
    let config = known(ConfigValue::read(alloc, config.as_bytes()).ok())?;
    Ok(Txn::Operators(OperatorTxn::SetConfig { revision, config }))
}

/// A transaction that compares the leader key with the revision that comes first, and tells nothing of its member.
fn under_leader_key(kind: &str, rest: &str) -> Result<Txn, Stop> {
    let (revision, rest) = first_word(rest);
    let (sync, standbys) = first_word(rest);
    let revision = number(revision)?;
    match kind {
        "release" => Ok(Txn::Lease(LeaseTxn::Release { revision })),
        "drop-failover" => Ok(Txn::Operators(OperatorTxn::DropFailover { revision })),
        "claim" => Ok(Txn::Sync(SyncTxn::Claim {
            revision,
            sync: expected(sync)?,
        })),
        "publish" => Ok(Txn::Sync(SyncTxn::SetSync {
            revision,
            sync: expected(sync)?,
            standbys: members(standbys)?,
            quorum: None,
        })),
        "withdraw" => Ok(Txn::Sync(SyncTxn::DropSync {
            revision,
            sync: number(sync)?,
        })),
        _ => Err(Stop::Unknown),
    }
}

/// What a key is expected to have: a revision, or `absent`.
fn expected(word: &str) -> Result<Expected, Stop> {
    if word == "absent" {
        return Ok(Expected::Absent);
    }
    Ok(Expected::Revision(number(word)?))
}

/// A renewal, by the revision that comes first and its options.
fn renewal(bench: &Bench, by: MemberId, rest: &str) -> Result<Txn, Stop> {
    let (revision, options) = first_word(rest);
    let (mut status, mut row, mut failsafe) = (None, None, None);
    for word in options.split(' ') {
        match word.split_once('=') {
            Some(("status", value)) => status = position_or_none(value)?,
            Some(("row", value)) => row = Some(history_row(value)?),
            Some(("failsafe", value)) => failsafe = Some(members(value)?),
            _ => {}
        }
    }
    Ok(Txn::Lease(LeaseTxn::Renew {
        revision: number(revision)?,
        info: info(bench, by, options)?,
        ttl: TTL,
        status,
        row,
        failsafe,
    }))
}

/// How a timeline ended, as `1@0/5000000@101@a`: which, where, when, and who leads the next.
fn history_row(value: &str) -> Result<HistoryRow, Stop> {
    let mut parts = value.split('@');
    Ok(HistoryRow {
        timeline: number(known(parts.next())?)?,
        at: position(known(parts.next())?)?,
        tick: ticks(known(parts.next())?)?,
        leader: member(known(parts.next())?)?,
    })
}

/// What a member tells of itself: that it runs, and what options say besides, among which those of a renewal may stand.
fn info(bench: &Bench, by: MemberId, options: &str) -> Result<MemberInfo, Stop> {
    let mut info = MemberInfo {
        host: known(bench.members().get(usize::from(by.number)))?.1,
        tags: TAGS,
        state: Word::Running,
        writes: false,
        timeline: None,
        end: None,
    };
    for word in options.split(' ') {
        match word.split_once('=') {
            Some(("state", "streaming")) => info.state = Word::Streaming,
            Some(("state", "stopped")) => info.state = Word::Stopped,
            Some(("timeline", value)) => info.timeline = Some(number(value)?),
            Some(("end", value)) => info.end = position_or_none(value)?,
            Some(("status" | "row" | "failsafe", _)) => {}
            None if word.is_empty() => {}
            _ => return Err(Stop::Unknown),
        }
    }
    Ok(info)
}
