//! What a replica hears of its upstream.
ghost use Rattle.std.specs.Prelude.{ℕ, ◌≡◌, ◌-◌, ◌==◌, if◌then◌else◌, None, Some, length, min, false, IsTrue, IsSome, IfOk, OnOk, OnErr};
ghost use Rattle.pat_base.specs.Lsn.{lsn_at};
ghost use Rattle.pat_base.specs.ServerState.{writes};
ghost use Rattle.wal_model.specs.Log.{IsPrefixOf, is_prefix, fork_of, received};
ghost use Rattle.pg_model.specs.Facts.{entries_of, is_replica};
ghost use Rattle.pg_model.specs.CatchingUp.{CatchesUp, IsBehind, log_position_of, answer_of, has_received};
ghost use Rattle.pg_model.specs.Replication.{is_current, stream_of, news_where, after_streamed, received_from};
ghost use Rattle.pg_model.specs.declared.server.catching_up.Met.TheVariants as mets;

use super::wal;
use crate::{Server, Streamed};
use std::alloc::AllocError;
use wal_model::{History, Wal};

/// How a replica stands to its upstream once it has looked there.
#[derive(Clone, Copy)]
pub(crate) enum Met {
    /// The upstream doesn't accept writes.
    Nothing,
    /// The upstream's log doesn't begin with its own.
    Parted,
    /// It received so many entries.
    Received(usize),
}

/// What a replica heard: its news, and whether it received from its upstream, and so is in step with it.
#[derive(Clone, Copy, Debug, PartialEq, Eq)]
pub struct CaughtUp {
    /// What changed, if anything did.
    pub news: Option<Streamed>,
    /// Whether it received, though it may have been nothing.
    pub received: bool,
}

impl Server {
    /// Receives from the upstream as `stream` does, and answers what is new, and whether it received. It runs as a replica. One
    /// that is known to be in step isn't compared with its upstream, and where the logs are known to have parted, the place isn't
    /// sought again. It fails only for want of memory, and then stays as it was.
    pub fn catch_up(
        &mut self,
        upstream: &Server,
        most: usize,
        in_step: bool,
    ) -> Result<CaughtUp, AllocError>
        requires replica { IsTrue (is_replica self.old.state) }
        requires in_step { IsTrue in_step → IsBehind (log_position_of self.old) (log_position_of upstream.now) }
        ensures ok { IfOk result (λ caught_up. CatchesUp self.old upstream.now most self.new caught_up.news caught_up.received) }
        ensures err { OnErr result (self.new ≡ self.old) }
    {
        let diverged = self.diverged;
        let current = self.is_current(upstream, in_step);
        let met = self.meet(upstream, most, in_step, current)?;
        Ok(CaughtUp {
            news: self.news(upstream, met, diverged, current),
            received: has_received(met),
        })
    }

    /// The one way in which a replica receives: the next entries of the upstream's log, at most so many, with its timeline
    /// and history unless it has them; or it notes that the logs parted. One that is known to be in step isn't compared
    /// with its upstream. It fails only for want of memory, and then stays as it was.
    pub(super) fn meet(
        &mut self,
        upstream: &Server,
        most: usize,
        in_step: bool,
        current: bool,
    ) -> Result<Met, AllocError>
        requires replica { IsTrue (is_replica self.old.state) }
        requires in_step { IsTrue in_step → IsBehind (log_position_of self.old) (log_position_of upstream.now) }
        requires current { current ≡ is_current self.old upstream.now }
        ensures met { IfOk result (λ met. answer_of met self.old upstream.now ≡ stream_of self.old upstream.now most) }
        ensures ok { IfOk result (λ met. self.new ≡ after_streamed (answer_of met self.old upstream.now) self.old upstream.now) }
        ensures err { OnErr result (self.new ≡ self.old) }
    {
        if !upstream.state.writes() {
            return Ok(Met::Nothing);
        }
        if !self.is_front_of(upstream, in_step) {
            self.diverged = true;
            return Ok(Met::Parted);
        }
        let count = self.receive(upstream, most, current)?;
        Ok(Met::Received(count))
    }

    /// Whether the upstream's log begins with its own. Nothing is compared where it is known to be in step.
    fn is_front_of(&self, upstream: &Server, in_step: bool) -> bool
        requires replica { IsTrue (is_replica self.now.state) }
        requires writing { IsTrue (writes upstream.now.state) }
        requires in_step { IsTrue in_step → IsBehind (log_position_of self.now) (log_position_of upstream.now) }
        ensures { result ≡ is_prefix (entries_of self.now.log) (entries_of upstream.now.log) }
    {
        in_step || wal(&self.log).is_prefix(wal(&upstream.log))
    }

    /// Whether it has the upstream's timeline and history. Nothing is compared where it is known to be in step.
    pub(super) fn is_current(&self, upstream: &Server, in_step: bool) -> bool
        requires { IsTrue in_step → IsBehind (log_position_of self.now) (log_position_of upstream.now) }
        ensures { result ≡ is_current self.now upstream.now }
    {
        in_step
            || (self.timeline == upstream.timeline && self.history.same_points(&upstream.history))
    }

    /// Appends the next entries, at most so many, takes the timeline and the history unless it has them, and answers how
    /// many entries there were. It fails only for want of memory, and then stays as it was.
    fn receive(
        &mut self,
        upstream: &Server,
        most: usize,
        current: bool,
    ) -> Result<usize, AllocError>
        requires replica { IsTrue (is_replica self.old.state) }
        requires writing { IsTrue (writes upstream.now.state) }
        requires prefix { IsPrefixOf (entries_of self.old.log) (entries_of upstream.now.log) }
        requires current { current ≡ is_current self.old upstream.now }
        ensures count { IfOk result (λ count. count ≡ min most (length (entries_of upstream.now.log) - length (entries_of self.old.log))) }
        ensures ok { IfOk result (λ count. self.new ≡ received_from count self.old upstream.now) }
        ensures err { OnErr result (self.new ≡ self.old) }
    {
        let from = wal(&upstream.log);
        if current {
            return receive_entries(&mut self.log, from, most);
        }
        let count = receive(
            &mut self.log,
            &mut self.history,
            from,
            &upstream.history,
            most,
        )?;
        self.timeline = upstream.timeline;
        Ok(count)
    }

    /// The answer to what it met: where the logs parted, the place.
    pub(super) fn answer(&self, upstream: &Server, met: Met) -> Streamed
        requires replica { IsTrue (is_replica self.now.state) }
        requires parted { met ≡ mets.Parted → IsTrue (writes upstream.now.state) }
        ensures { result ≡ answer_of met self.now upstream.now }
    {
        match met {
            Met::Nothing => Streamed::NotConnected,
            Met::Parted => Streamed::Diverged(wal(&self.log).fork(wal(&upstream.log))),
            Met::Received(count) => Streamed::Received(count),
        }
    }

    /// What of that is new to it.
    fn news(&self, upstream: &Server, met: Met, diverged: bool, current: bool) -> Option<Streamed>
        requires replica { IsTrue (is_replica self.now.state) }
        requires parted { met ≡ mets.Parted → IsTrue (writes upstream.now.state) }
        ensures { result ≡ news_where (answer_of met self.now upstream.now) diverged current }
    {
        match met {
            Met::Nothing => None,
            Met::Parted if diverged => None,
            Met::Received(0) if current => None,
            _ => Some(self.answer(upstream, met)),
        }
    }
}

/// Whether it received from its upstream.
fn has_received(met: Met) -> bool
    ensures { result ≡ has_received met }
{
    matches!(met, Met::Received(_))
}

/// Appends the next entries of another log that begins with this one, at most so many. It fails only for want of memory,
/// and then the log stays as it was.
fn receive_entries(log: &mut Option<Wal>, from: &Wal, most: usize) -> Result<usize, AllocError>
    requires there { IsSome log.old }
    requires prefix { IsPrefixOf (entries_of log.old) from.now }
    ensures count { IfOk result (λ count. count ≡ min most (length from.now - length (entries_of log.old))) }
    ensures log { OnOk result (log.new ≡ Some (received (entries_of log.old) from.now most)) }
    ensures err { OnErr result (log.new ≡ log.old) }
{
    let Some(log) = log else {
        unreachable!();
    };
    log.receive(from, most)
}

/// Appends the next entries of another log that begins with this one, at most so many, and takes the points of its
/// history. It fails only for want of memory, and then both stay as they were.
fn receive(
    log: &mut Option<Wal>,
    history: &mut History,
    from: &Wal,
    points: &History,
    most: usize,
) -> Result<usize, AllocError>
    requires there { IsSome log.old }
    requires prefix { IsPrefixOf (entries_of log.old) from.now }
    ensures count { IfOk result (λ count. count ≡ min most (length from.now - length (entries_of log.old))) }
    ensures log { OnOk result (log.new ≡ Some (received (entries_of log.old) from.now most)) }
    ensures history { OnOk result (history.new ≡ record history.old { points = points.now.points }) }
    ensures log_stays { OnErr result (log.new ≡ log.old) }
    ensures history_stays { OnErr result (history.new ≡ history.old) }
{
    let Some(log) = log else {
        unreachable!();
    };
    let had = log.len();
    let count = log.receive(from, most)?;
    if let Err(failed) = history.try_clone_from(points) {
        log.truncate(had);
        return Err(failed);
    }
    Ok(count)
}
