//! Servers.
ghost use Rattle.std.specs.Prelude.{ℕ, ◌≡◌, ◌≤◌, ◌<◌, ◌+◌, ◌-◌, ◌^◌, ◌++◌, ◌&&◌, ◌↔◌, [], ◌∷◌, length, min, Option, Some, None, IsTrue, IsSome, IsOk, IfOk, IfErr, OnOk, OnErr, IsErrOf, slice_index_or, option_copied, is_none, false};
ghost use Rattle.std.specs.Option.{ForSome};
ghost use Rattle.std.specs.List.{list_any};
ghost use Rattle.pat_base.specs.ServerState.{writes, live};
ghost use Rattle.pat_base.specs.Lsn.{lsn_at};
ghost use Rattle.wal_model.specs.Log.{end_of, IsPrefixOf, received};
ghost use Rattle.pg_model.specs.Facts.{fresh, entries_of, is_replica, is_creating, is_down, is_up, is_running, has_data};
ghost use Rattle.pg_model.specs.Running.{reserved, promoted, started, starting, replica_started, primary_started, stopping, crashed, crashed_state, wiped, restarted, ticked, delayed};
ghost use Rattle.pg_model.specs.Replication.{following, committed, stream_of, streamed, confirming, is_met, all_reach, next_acknowledged, acknowledged, may_acknowledge, reaches, is_free, is_sure, sure_count};
ghost use Rattle.pg_model.specs.declared.answers.CommitFault.TheVariants as commit_faults;
ghost use Rattle.pg_model.specs.declared.answers.StreamFault.TheVariants as stream_faults;
ghost use Rattle.pat_base.specs.declared.member_id.TheConstants.{MOST_MEMBERS};
ghost use Rattle.pat_base.specs.Moments.{latest};

mod catching_up;
mod rewinding;

use crate::{CommitFault, InState, StreamFault, Streamed, Waiting};
pub use catching_up::CaughtUp;
use pat_base::{Lsn, MOST_MEMBERS, MemberId, MemberSet, Required, ServerId, State, Ticks};
pub use rewinding::is_rewindable;
use std::alloc::{AllocError, Global};
use std::collections::VecDeque;
use std::marker::Model;
use wal_model::{Entry, History, HistoryPoint, Wal, WalFault};

/// A PostgreSQL server: its state, its log, its timeline with its history, whom it follows, and what its commits wait for.
///
/// Its log is absent exactly while it is `Creating`: it waits for a copy of another server then, as after `wipe`. Moments
/// and delays are in ticks of 100 ms, positions and sizes in bytes.
#[derive(Drop)]
pub struct Server {
    state: State,
    log: Option<Wal>,
    timeline: u64,
    history: History,
    upstream: Option<ServerId>,
    diverged: bool,
    was_primary: bool,
    required: Required,
    confirmed: [Option<Lsn>; MOST_MEMBERS],
    waiting: VecDeque<Waiting>,
    stop_delay: Ticks,
    start_delay: Ticks,
    receives: bool,
    connected: MemberSet,
}

impl Model for Server {
    ghost use Rattle.std.specs.Prelude.{◌≡◌, ◌≤◌, ◌^◌, is_none};
    ghost use Rattle.pg_model.specs.Facts.{ServerFacts, is_creating};

    ghost Value = { ServerFacts };

    ghost view = { λ s. record {
      state = s.state;
      log = s.log;
      timeline = s.timeline;
      history = s.history.points;
      spare = s.history.spare;
      upstream = s.upstream;
      diverged = s.diverged;
      was_primary = s.was_primary;
      required = s.required;
      confirmed = s.confirmed;
      waiting = s.waiting.items;
      stop_delay = s.stop_delay;
      start_delay = s.start_delay;
      receives = s.receives;
      connected = s.connected;
    } };

    ghost invariant = { λ s. (is_none s.log ≡ is_creating s.state) × (s.stop_delay.0 ≤ 2 ^ 40) × (s.start_delay.0 ≤ 2 ^ 40) };
}

impl Server {
    /// A running replica on timeline 1, which follows nobody and whose log begins with so many bytes of data, at most 2^63.
    /// Its starts and stops take no time. It fails only for want of memory.
    pub fn new(alloc: Global, base: u64) -> Result<Server, AllocError>
        requires { base ≤ 2 ^ 63 }
        ensures { IfOk result (λ server. server ≡ fresh base) }
    {
        Ok(Server {
            state: State::Replica,
            log: Some(base_log(alloc, base)?),
            timeline: 1,
            history: History::new(alloc),
            upstream: None,
            diverged: false,
            was_primary: false,
            required: Required::Nobody,
            confirmed: [None; MOST_MEMBERS],
            waiting: VecDeque::new(alloc),
            stop_delay: Ticks(0),
            start_delay: Ticks(0),
            receives: false,
            connected: MemberSet::empty(),
        })
    }

    /// Its state.
    pub fn state(&self) -> State
        ensures { result ≡ self.now.state }
    {
        self.state
    }

    /// Whether it accepts writes.
    pub fn writes(&self) -> bool
        ensures { result ≡ writes self.now.state }
    {
        self.state.writes()
    }

    /// Whether it accepts writes, or will when its start is complete.
    pub fn live(&self) -> bool
        ensures { result ≡ live self.now.state }
    {
        self.state.live()
    }

    /// Its log. `None` exactly where the log is absent, which is where it waits for a copy.
    pub fn log(&self) -> Option<&Wal>
        ensures log { option_copied result ≡ self.now.log }
        ensures absent { is_none result ≡ is_creating self.now.state }
    {
        self.log.as_ref()
    }

    /// Its timeline, from 1.
    pub fn timeline(&self) -> u64
        ensures { result ≡ self.now.timeline }
    {
        self.timeline
    }

    /// The points at which earlier timelines were left, the oldest first.
    pub fn history(&self) -> &History
        ensures points { result.now.points ≡ self.now.history }
        ensures spare { result.now.spare ≡ self.now.spare }
    {
        &self.history
    }

    /// Whom it follows as a replica, or is to follow when it is one. A primary keeps whom it followed before.
    pub fn upstream(&self) -> Option<ServerId>
        ensures { result ≡ self.now.upstream }
    {
        self.upstream
    }

    /// Whether its log was found to be no prefix of its upstream's. It is so until it follows anew, crashes or is wiped.
    pub fn diverged(&self) -> bool
        ensures { result ≡ self.now.diverged }
    {
        self.diverged
    }

    /// Whether its last run was, or its present one is, that of a primary. Only such a server starts as a primary again.
    pub fn was_primary(&self) -> bool
        ensures { result ≡ self.now.was_primary }
    {
        self.was_primary
    }

    /// How long its later stops take, at most 2^40 ticks.
    pub fn stop_delay(&self) -> Ticks
        ensures value { result ≡ self.now.stop_delay }
        ensures bound { result.0 ≤ 2 ^ 40 }
    {
        self.stop_delay
    }

    /// How long its later starts take, at most 2^40 ticks.
    pub fn start_delay(&self) -> Ticks
        ensures value { result ≡ self.now.start_delay }
        ensures bound { result.0 ≤ 2 ^ 40 }
    {
        self.start_delay
    }

    /// Whose confirmation its commits wait for, as PostgreSQL's setting `synchronous_standby_names` says (its
    /// documentation, "Synchronous Replication").
    pub fn required(&self) -> Required
        ensures { result ≡ self.now.required }
    {
        self.required
    }

    /// The position up to which a member told that it has flushed this server's log. `None` exactly where none is kept.
    pub fn confirmed(&self, by: MemberId) -> Option<Lsn>
        ensures { result ≡ slice_index_or self.now.confirmed by.number None }
    {
        position_by(&self.confirmed, by)
    }

    /// Whether it receives from its upstream, as it was told last.
    pub fn receives(&self) -> bool
        ensures { result ≡ self.now.receives }
    {
        self.receives
    }

    /// Which members are connected to it, as it was told last.
    pub fn connected(&self) -> MemberSet
        ensures { result ≡ self.now.connected }
    {
        self.connected
    }

    /// How often it may be promoted without taking memory: `promote` wants at least 1, which `reserve` brings about.
    pub fn spare(&self) -> usize
        ensures { result ≡ self.now.spare }
    {
        self.history.spare()
    }

    /// Sets how long later stops and starts take, each only where it is given, and each at most 2^40 ticks. One that is
    /// under way ends at its moment.
    pub fn set_delays(&mut self, stop: Option<Ticks>, start: Option<Ticks>)
        requires stop { ForSome stop (λ delay. delay.0 ≤ 2 ^ 40) }
        requires start { ForSome start (λ delay. delay.0 ≤ 2 ^ 40) }
        ensures { self.new ≡ delayed stop start self.old }
    {
        self.stop_delay = stop.unwrap_or(self.stop_delay);
        self.start_delay = start.unwrap_or(self.start_delay);
    }

    /// Tells it whether it receives from its upstream, and which members are connected to it. It does nothing by that.
    pub fn set_links(&mut self, receives: bool, connected: MemberSet)
        ensures { self.new ≡ record self.old { receives = receives; connected = connected } }
    {
        self.receives = receives;
        self.connected = connected;
    }

    /// Sets whose confirmation its commits wait for, those that wait already too.
    pub fn set_required(&mut self, required: Required)
        ensures { self.new ≡ record self.old { required = required } }
    {
        self.required = required;
    }

    /// Takes the memory that a promotion needs, so that it has room for one at least. It fails only for want of memory, and
    /// then stays as it was.
    pub fn reserve(&mut self) -> Result<(), AllocError>
        ensures ok { OnOk result (self.new ≡ reserved self.old) }
        ensures err { OnErr result (self.new ≡ self.old) }
    {
        self.history.reserve(1)
    }

    /// Promotes a replica, as `pg_promote` does (PostgreSQL's documentation, "Recovery Control Functions"): it accepts writes
    /// at once, on the next timeline, and enters into its history where it left the one before ("Timelines"). What was
    /// confirmed to an earlier primary is forgotten. Refused exactly unless it runs as a replica, and then it stays as it
    /// was.
    ///
    /// It wants room for a promotion (`reserve`) and a timeline below 2^60, so it can't fail for want of memory.
    pub fn promote(&mut self, _now: Ticks) -> Result<(), InState>
        requires spare { 1 ≤ self.old.spare }
        requires timeline { self.old.timeline < 2 ^ 60 }
        ensures when { IsOk result ↔ IsTrue (is_replica self.old.state) }
        ensures state { IfErr result (λ refusal. refusal.0 ≡ self.old.state) }
        ensures ok { OnOk result (self.new ≡ promoted self.old) }
        ensures err { OnErr result (self.new ≡ self.old) }
    {
        let (State::Replica, Some(log)) = (self.state, &self.log) else {
            return Err(InState(self.state));
        };
        let left = HistoryPoint {
            timeline: self.timeline,
            at: log.end(),
        };
        self.history.add(left).unwrap();
        self.confirmed = [None; MOST_MEMBERS];
        self.timeline += 1;
        self.was_primary = true;
        self.state = State::Primary;
        Ok(())
    }

    /// Starts as a replica of a server, or of none: it runs at once, or after its start delay. Refused exactly unless it is
    /// stopped or crashed, and then it stays as it was. The moment is at most 2^62 ticks.
    pub fn start_replica(&mut self, now: Ticks, upstream: Option<ServerId>) -> Result<(), InState>
        requires { now.0 ≤ latest }
        ensures when { IsOk result ↔ IsTrue (is_down self.old.state) }
        ensures state { IfErr result (λ refusal. refusal.0 ≡ self.old.state) }
        ensures ok { OnOk result (self.new ≡ replica_started now upstream self.old) }
        ensures err { OnErr result (self.new ≡ self.old) }
    {
        if !self.state.is_down() {
            return Err(InState(self.state));
        }
        self.upstream = upstream;
        self.was_primary = false;
        self.start(false, now);
        Ok(())
    }

    /// Starts as a primary again, on its timeline: it accepts writes at once, or after its start delay, and then what was
    /// confirmed to it before is forgotten. Refused exactly unless it is stopped or crashed and its last run was a
    /// primary, and then it stays as it was. The moment is at most 2^62 ticks.
    pub fn start_primary(&mut self, now: Ticks) -> Result<(), InState>
        requires { now.0 ≤ latest }
        ensures when { IsOk result ↔ IsTrue (is_down self.old.state && self.old.was_primary) }
        ensures state { IfErr result (λ refusal. refusal.0 ≡ self.old.state) }
        ensures ok { OnOk result (self.new ≡ primary_started now self.old) }
        ensures err { OnErr result (self.new ≡ self.old) }
    {
        if !self.state.is_down() || !self.was_primary {
            return Err(InState(self.state));
        }
        self.start(true, now);
        Ok(())
    }

    /// Starts, at once or after the delay.
    fn start(&mut self, as_primary: bool, now: Ticks)
        requires log { IsTrue (has_data self.old.state) }
        requires moment { now.0 ≤ latest }
        ensures { self.new ≡ starting as_primary now self.old }
    {
        if self.start_delay == Ticks(0) {
            self.complete_start(as_primary);
        } else {
            self.state = State::Starting {
                as_primary,
                at: now + self.start_delay,
            };
        }
    }

    /// Runs from now on, as a replica, or as a primary to which nobody has confirmed a position.
    fn complete_start(&mut self, as_primary: bool)
        requires { IsTrue (has_data self.old.state) }
        ensures { self.new ≡ started as_primary self.old }
    {
        if as_primary {
            self.state = State::Primary;
            self.was_primary = true;
            self.confirmed = [None; MOST_MEMBERS];
        } else {
            self.state = State::Replica;
        }
    }

    /// Shuts down in an orderly way, at once or after its stop delay. A primary accepts writes until it has ended. Then no
    /// commit waits any more; they stay in the log. Refused exactly unless it runs or starts, and then it stays as it was.
    /// The moment is at most 2^62 ticks.
    pub fn stop(&mut self, now: Ticks) -> Result<(), InState>
        requires { now.0 ≤ latest }
        ensures when { IsOk result ↔ IsTrue (is_up self.old.state) }
        ensures state { IfErr result (λ refusal. refusal.0 ≡ self.old.state) }
        ensures ok { OnOk result (self.new ≡ stopping now self.old) }
        ensures err { OnErr result (self.new ≡ self.old) }
    {
        if !is_up(self.state) {
            return Err(InState(self.state));
        }
        if self.stop_delay == Ticks(0) {
            self.end(State::Stopped);
        } else {
            self.state = State::Stopping {
                was_primary: self.state == State::Primary,
                at: now + self.stop_delay,
            };
        }
        Ok(())
    }

    /// Ends without a shutdown, at once, from any state: it is `Crashed` afterwards, also where it was `Stopped` or had
    /// crashed before. No commit waits any more, and a divergence that was noted is forgotten. Only a server that waits
    /// for a copy goes on to wait.
    pub fn crash(&mut self)
        ensures { self.new ≡ crashed self.old }
    {
        self.end(crashed_state(self.state));
        self.diverged = false;
    }

    /// Loses its data, as when its data directory is removed before it is copied anew (Patroni's documentation,
    /// "patronictl reinit"): it has no log and waits for a copy from then on. No commit waits any more, and a divergence
    /// that was noted is forgotten; all else stays, its timeline with its history too. Refused exactly where it accepts
    /// writes, or will when its start is complete, and then it stays as it was.
    pub fn wipe(&mut self) -> Result<(), InState>
        ensures when { IsOk result ↔ (live self.old.state ≡ false) }
        ensures state { IfErr result (λ refusal. refusal.0 ≡ self.old.state) }
        ensures ok { OnOk result (self.new ≡ wiped self.old) }
        ensures err { OnErr result (self.new ≡ self.old) }
    {
        if self.live() {
            return Err(InState(self.state));
        }
        self.log = None;
        self.state = State::Creating;
        self.diverged = false;
        self.waiting.clear();
        Ok(())
    }

    /// Ends and starts again in its role, as a restart of PostgreSQL does (its documentation, "pg_ctl"): a primary as a
    /// primary on its timeline, a replica as a replica of whom it follows. It ends at once, and runs again at once or after
    /// its start delay. No commit of a primary waits any more; they stay in the log, and once it accepts writes again what
    /// was confirmed to it before is forgotten. Refused exactly unless it runs, and then it stays as it was. The moment is
    /// at most 2^62 ticks.
    pub fn restart(&mut self, now: Ticks) -> Result<(), InState>
        requires { now.0 ≤ latest }
        ensures when { IsOk result ↔ IsTrue (is_running self.old.state) }
        ensures state { IfErr result (λ refusal. refusal.0 ≡ self.old.state) }
        ensures ok { OnOk result (self.new ≡ restarted now self.old) }
        ensures err { OnErr result (self.new ≡ self.old) }
    {
        match self.state {
            State::Primary => {
                self.end(State::Stopped);
                self.start(true, now);
                Ok(())
            }
            State::Replica => {
                self.was_primary = false;
                self.start(false, now);
                Ok(())
            }
            state => Err(InState(state)),
        }
    }

    /// Is in this state from now on, in which no commit waits.
    fn end(&mut self, state: State)
        requires { is_creating state ≡ is_creating self.old.state }
        ensures { self.new ≡ record self.old { state = state; waiting = [] } }
    {
        self.state = state;
        self.waiting.clear();
    }

    /// Completes a start or a stop whose moment has come. It does nothing in any other state, or before that moment.
    pub fn tick(&mut self, now: Ticks)
        ensures { self.new ≡ ticked now self.old }
    {
        let state = self.state;
        match state {
            State::Starting { as_primary, at } if at <= now => self.complete_start(as_primary),
            State::Stopping { at, .. } if at <= now => self.end(State::Stopped),
            _ => {}
        }
    }

    /// Follows a server from now on, and forgets a divergence that was noted, also where it follows that one already.
    /// Refused exactly unless it runs as a replica, and then it stays as it was.
    pub fn follow(&mut self, upstream: ServerId) -> Result<(), InState>
        ensures when { IsOk result ↔ IsTrue (is_replica self.old.state) }
        ensures state { IfErr result (λ refusal. refusal.0 ≡ self.old.state) }
        ensures ok { OnOk result (self.new ≡ following upstream self.old) }
        ensures err { OnErr result (self.new ≡ self.old) }
    {
        let State::Replica = self.state else {
            return Err(InState(self.state));
        };
        self.upstream = Some(upstream);
        self.diverged = false;
        Ok(())
    }

    /// Follows another server from now on, or from when it runs as a replica.
    pub fn set_upstream(&mut self, upstream: ServerId)
        ensures { self.new ≡ following upstream self.old }
    {
        self.upstream = Some(upstream);
        self.diverged = false;
    }

    /// Appends a commit of so many bytes, which then waits for acknowledgement. `NotPrimary` exactly where the server
    /// doesn't accept writes, and then `Full` exactly where the log would end past 2^63 bytes; `Memory` only for want of
    /// memory. A refused server stays as it was. It costs constant time beside the log's growth.
    pub fn commit(&mut self, serial: u64, bytes: u64) -> Result<(), CommitFault>
        ensures not_primary { IsErrOf result commit_faults.NotPrimary ↔ (writes self.old.state ≡ false) }
        ensures full { IsErrOf result commit_faults.Full ↔ (IsTrue (writes self.old.state) × (2 ^ 63 < end_of (entries_of self.old.log) + bytes)) }
        ensures ok { OnOk result (self.new ≡ committed serial bytes self.old) }
        ensures err { OnErr result (self.new ≡ self.old) }
    {
        if !self.state.writes() {
            return Err(CommitFault::NotPrimary);
        }
        if !wal(&self.log).fits(bytes) {
            return Err(CommitFault::Full);
        }
        let entry = Entry {
            serial,
            timeline: self.timeline,
            bytes,
        };
        self.waiting.reserve(1)?;
        let end = append(&mut self.log, entry)?;
        self.waiting.push_back_reserved(Waiting { serial, end });
        Ok(())
    }

    /// Receives the next entries from the upstream, at most so many, with its timeline and history; or finds that the
    /// upstream doesn't accept writes, or that the own log is no prefix of its log (PostgreSQL's documentation, "Streaming
    /// Replication"). `InState` exactly unless it runs as a replica, `Memory` only for want of memory; it stays as it was
    /// then. It compares the own log with the front of the upstream's, and moves no entry but the missing ones.
    pub fn stream(&mut self, upstream: &Server, most: usize) -> Result<Streamed, StreamFault>
        ensures refused { IsErrOf result (stream_faults.InState self.old.state) ↔ (is_replica self.old.state ≡ false) }
        ensures answer { IfOk result (λ answer. answer ≡ stream_of self.old upstream.now most) }
        ensures ok { OnOk result (self.new ≡ streamed self.old upstream.now most) }
        ensures err { OnErr result (self.new ≡ self.old) }
    {
        let State::Replica = self.state else {
            return Err(StreamFault::InState(self.state));
        };
        let current = self.is_current(upstream, false);
        let met = self.meet(upstream, most, false, current)?;
        Ok(self.answer(upstream, met))
    }

    /// Records the position up to which a member has flushed the log, in place of the one before, whichever is greater.
    pub fn confirm(&mut self, by: MemberId, end: Lsn)
        ensures { self.new ≡ confirming by end self.old }
    {
        self.confirmed[by.number as usize] = Some(end);
    }

    /// Takes the oldest waiting commit, where it may be acknowledged, and answers its number: where the server accepts
    /// writes, and the commit's end is confirmed by whom commits wait for. `None` exactly otherwise, and then nothing
    /// changes. Commits are acknowledged in the order of the log.
    pub fn next_acknowledged(&mut self) -> Option<u64>
        ensures commit { result ≡ next_acknowledged self.old }
        ensures after { self.new ≡ acknowledged self.old }
    {
        if !self.may_acknowledge() {
            return None;
        }
        self.waiting.pop_front().map(|commit| commit.serial)
    }

    /// Whether the oldest waiting commit may be acknowledged.
    fn may_acknowledge(&self) -> bool
        ensures { result ≡ may_acknowledge self.now }
    {
        match self.waiting.front() {
            Some(commit) => self.state.writes()
                && is_met(self.required, commit.end, &self.confirmed),
            None => false,
        }
    }
}

/// A log of so many bytes of data.
fn base_log(alloc: Global, base: u64) -> Result<Wal, AllocError>
    requires { base ≤ 2 ^ 63 }
    ensures { IfOk result (λ log. Some log ≡ (fresh base).log) }
{
    let mut log = Wal::new(alloc);
    let entry = Entry {
        serial: 0,
        timeline: 1,
        bytes: base,
    };
    match log.append(entry) {
        Ok(()) => Ok(log),
        Err(_) => Err(AllocError),
    }
}

/// The log, which is there.
fn wal(log: &Option<Wal>) -> &Wal
    requires { IsSome log.now }
    ensures { Some result.now ≡ log.now }
{
    match log {
        Some(log) => log,
        None => unreachable!(),
    }
}

/// Appends an entry to the log, and answers its end. It fails only for want of memory, and then the log stays as it was.
fn append(log: &mut Option<Wal>, entry: Entry) -> Result<Lsn, AllocError>
    requires there { IsSome log.old }
    requires room { end_of (entries_of log.old) + entry.bytes ≤ 2 ^ 63 }
    ensures ok { OnOk result (log.new ≡ Some (entries_of log.old ++ entry ∷ [])) }
    ensures end { IfOk result (λ end. end ≡ lsn_at (end_of (entries_of log.old ++ entry ∷ []))) }
    ensures err { OnErr result (log.new ≡ log.old) }
{
    let Some(log) = log else {
        unreachable!();
    };
    match log.append(entry) {
        Ok(()) => Ok(log.end()),
        Err(_) => Err(AllocError),
    }
}

/// The position that a member confirmed.
fn position_by(confirmed: &[Option<Lsn>; MOST_MEMBERS], by: MemberId) -> Option<Lsn>
    ensures { result ≡ slice_index_or confirmed.now by.number None }
{
    confirmed[by.number as usize]
}

/// The state after a crash.
fn crashed_state(state: State) -> State
    ensures { result ≡ crashed_state state }
{
    match state {
        State::Creating => State::Creating,
        _ => State::Crashed,
    }
}

pub(crate) fn is_up(state: State) -> bool
    ensures { result ≡ is_up state }
{
    matches!(
        state,
        State::Starting { .. } | State::Replica | State::Primary
    )
}

/// Whether the end of a commit is confirmed by whom it waits for.
fn is_met(required: Required, end: Lsn, confirmed: &[Option<Lsn>]) -> bool
    requires { length confirmed.now ≡ MOST_MEMBERS }
    ensures { result ≡ is_met required end confirmed.now }
{
    match required {
        Required::Nobody => true,
        Required::AnyOne => any_reaches(end, confirmed),
        Required::All(members) => all_reach(members, end, confirmed),
        Required::AtLeast { number, of } => number <= sure_count(of, end, confirmed),
    }
}

/// Whether any member confirmed the end of a commit.
fn any_reaches(end: Lsn, confirmed: &[Option<Lsn>]) -> bool
    ensures { result ≡ list_any (reaches end) confirmed.now }
{
    confirmed.iter().any(|position| reaches(end, *position))
}

/// Whether each member of the set confirmed the end of a commit.
fn all_reach(members: MemberSet, end: Lsn, confirmed: &[Option<Lsn>]) -> bool
    requires { length confirmed.now ≡ MOST_MEMBERS }
    ensures { result ≡ all_reach 0 members end confirmed.now }
{
    for number in 0..MOST_MEMBERS as u8 {
        if !is_free(
            members,
            MemberId { number },
            end,
            confirmed[number as usize],
        ) {
            return false;
        }
    }
    true
}

/// How many members of the set confirmed the end of a commit.
fn sure_count(members: MemberSet, end: Lsn, confirmed: &[Option<Lsn>]) -> u8
    requires { length confirmed.now ≡ MOST_MEMBERS }
    ensures { result ≡ sure_count 0 members end confirmed.now }
{
    let mut sure = 0;
    for number in 0..MOST_MEMBERS as u8 {
        if is_sure(
            members,
            MemberId { number },
            end,
            confirmed[number as usize],
        ) {
            sure += 1;
        }
    }
    sure
}

/// Whether a member of the set confirmed the end of a commit.
fn is_sure(members: MemberSet, member: MemberId, end: Lsn, position: Option<Lsn>) -> bool
    ensures { result ≡ is_sure members member.number end position }
{
    members.contains(member) && reaches(end, position)
}

/// Whether a member isn't waited for: it is not in the set, or confirmed the end of the commit.
fn is_free(members: MemberSet, member: MemberId, end: Lsn, position: Option<Lsn>) -> bool
    ensures { result ≡ is_free members member.number end position }
{
    !members.contains(member) || reaches(end, position)
}

/// Whether what a member confirmed is at or past the end of a commit.
fn reaches(end: Lsn, confirmed: Option<Lsn>) -> bool
    ensures { result ≡ reaches end confirmed }
{
    match confirmed {
        Some(confirmed) => end.position <= confirmed.position,
        None => false,
    }
}
