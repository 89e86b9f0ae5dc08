//! Logs and histories.
use crate::checks::has;
use crate::plain_log::PlainLog;
use crate::random_logs::all_told;
use pat_base::Lsn;
use std::alloc::{AllocError, Global};
use std::process::Abort;
use wal_model::{Entry, History, HistoryPoint, Serials, Wal, WalFault, has_serial, lacks};

fn entry(serial: u64, bytes: u64) -> Entry {
    Entry {
        serial,
        timeline: 1,
        bytes,
    }
}

fn append(log: &mut Wal, serial: u64, bytes: u64) -> Result<(), WalFault> {
    log.append(entry(serial, bytes))
}

/// A log with so many entries of one byte.
fn log_of(alloc: Global, entries: u64) -> Result<Wal, WalFault> {
    let mut log = Wal::new(alloc);
    for serial in 0..entries {
        append(&mut log, serial, 1)?;
    }
    Ok(log)
}

fn cut(log: &mut Wal, entries: usize) {
    log.truncate(entries.min(log.len()));
}

/// How many entries a log has, and where it ends.
fn size(log: &Wal) -> (usize, u64) {
    (log.len(), log.end().position)
}

fn at(log: &Wal, place: usize) -> Option<Entry> {
    log.get(place)
}

/// Whether the second of two logs begins with the first, with how many entries both begin, and where they part.
fn stand(log: &Wal, other: &Wal) -> (bool, usize, u64) {
    (
        log.is_prefix(other),
        log.common(other),
        log.fork(other).position,
    )
}

/// How many entries a log receives of another one that begins with it.
fn receive(log: &mut Wal, other: &Wal, most: usize) -> Option<usize> {
    if log.is_prefix(other) {
        return log.receive(other, most).ok();
    }
    None
}

fn copied(log: &Wal) -> Result<Wal, AllocError> {
    log.try_clone()
}

#[test]
fn a_full_log(rt: HostRuntime) {
    let mut log = Wal::new(rt.alloc());
    has(&rt, &append(&mut log, 0, 1 << 63), &Ok(()));
    has(&rt, &append(&mut log, 1, 1), &Err(WalFault::Full));
    assert!(rt; log.fits(0));
}

/// One log receives from another, and parts from it.
#[test]
fn two_logs(rt: HostRuntime) {
    let mut log = Wal::new(rt.alloc());
    has(&rt, &append(&mut log, 1, 7), &Ok(()));
    has(&rt, &append(&mut log, 2, 5), &Ok(()));
    let mut other = Wal::new(rt.alloc());
    has(
        &rt,
        &(other.is_empty(), stand(&other, &log)),
        &(true, (true, 0, 0)),
    );
    has(&rt, &receive(&mut other, &log, 9), &Some(2));
    has(&rt, &size(&other), &(2, 12));
    cut(&mut other, 1);
    has(&rt, &append(&mut other, 3, 5), &Ok(()));
    has(&rt, &stand(&other, &log), &(false, 1, 7));
    check_serials(&rt, rt.alloc(), &other);
}

/// Which commits a log of those with the serials 1 and 3 has.
fn check_serials(rt: &impl Abort, alloc: Global, log: &Wal) {
    assert!(rt; has_serial(log, 3));
    has(rt, &lacks_some(alloc, log, &[3, 1]), &Ok(false));
    has(rt, &lacks_some(alloc, log, &[2]), &Ok(true));
}

/// Whether a log lacks one of the commits of these serials.
fn lacks_some(alloc: Global, log: &Wal, told: &[u64]) -> Result<bool, AllocError> {
    let mut serials = Serials::new(alloc);
    for serial in told {
        serials.push(*serial)?;
    }
    lacks(log, &serials, alloc)
}

/// Whether a log of the commits of the first serials lacks one of those of the second.
fn lacks_between(alloc: Global, has: &[u64], told: &[u64]) -> Result<bool, WalFault> {
    let mut log = Wal::new(alloc);
    for serial in has {
        append(&mut log, *serial, 1)?;
    }
    Ok(lacks_some(alloc, &log, told)?)
}

/// Serials that come in two runs and by one: each of a run is looked for.
#[test]
fn serials_in_runs(rt: HostRuntime) {
    let alloc = rt.alloc();
    assert!(rt; Serials::new(alloc).is_empty());
    let told = [1, 2, 3, 7, 8, 3];
    let all = lacks_between(alloc, &[8, 7, 3, 2, 1], &told);
    has(&rt, &all, &Ok(false));
    let without_inner = lacks_between(alloc, &[1, 3, 7, 8], &told);
    has(&rt, &without_inner, &Ok(true));
    let without_last = lacks_between(alloc, &[1, 2, 3, 7], &told);
    has(&rt, &without_last, &Ok(true));
}

/// What is cut off a log in pieces is gone from it alone, wherever the cut lies.
#[test]
fn pieces_of_a_log(rt: HostRuntime) {
    let mut log = log_of(rt.alloc(), 600).expect(&rt, "room");
    let copy = copied(&log).expect(&rt, "memory");
    has(&rt, &at(&log, 255), &Some(entry(255, 1)));
    has(&rt, &at(&log, 256), &Some(entry(256, 1)));
    has(&rt, &at(&log, 599), &Some(entry(599, 1)));
    has(&rt, &at(&log, 600), &None);
    cut(&mut log, 257);
    has(&rt, &size(&log), &(257, 257));
    cut(&mut log, 256);
    has(&rt, &size(&log), &(256, 256));
    has(&rt, &at(&log, 255), &Some(entry(255, 1)));
    has(&rt, &at(&log, 256), &None);
    has(&rt, &size(&copy), &(600, 600));
    has(&rt, &at(&copy, 599), &Some(entry(599, 1)));
}

/// A history with this point, and with room for one more.
fn history_of(alloc: Global, point: HistoryPoint) -> Result<History, AllocError> {
    let mut history = History::new(alloc);
    history.reserve(2)?;
    history.add(point)?;
    Ok(history)
}

/// A history without points that becomes a copy of another one.
fn become_copy(alloc: Global, of: &History) -> Result<History, AllocError> {
    let mut history = History::new(alloc);
    history.try_clone_from(of)?;
    Ok(history)
}

fn copied_history(history: &History) -> Result<History, AllocError> {
    history.try_clone()
}

#[test]
fn histories(rt: HostRuntime) {
    let at = Lsn { position: 10 };
    let history = history_of(rt.alloc(), HistoryPoint { timeline: 1, at }).expect(&rt, "memory");
    has(&rt, &(history.len(), history.spare()), &(1, 1));
    let copy = copied_history(&history).expect(&rt, "memory");
    let other = become_copy(rt.alloc(), &copy).expect(&rt, "memory");
    for told in [&history, &copy, &other] {
        has(&rt, &told.point(1), &Some(at));
    }
}

/// Random calls of two logs in pieces, and the same calls of plain ones.
#[test]
fn logs_in_pieces_and_plain_ones(rt: HostRuntime) {
    let alloc = rt.alloc();
    let told = all_told(alloc, Wal::new(alloc), Wal::new(alloc));
    let wanted = all_told(alloc, PlainLog::new(alloc), PlainLog::new(alloc));
    assert!(rt; told.is_some() && told == wanted);
}
