//! The servers of a cluster.
ghost use Rattle.std.specs.Prelude.{ℕ, ◌≡◌, ◌≤◌, ◌<◌, ◌^◌, ◌==◌, ◌&&◌, ◌||◌, ◌↔◌, [], length, map, replicate, Option, Some, slice_get, ◌≢◌, false, IsTrue, IfSome, IfOk, OnOk, OnErr, option_map, option_copied, option_and_then};
ghost use Rattle.std.specs.Option.{ForSome};
ghost use Rattle.pat_base.specs.Changes.{with_changed};
ghost use Rattle.pat_base.specs.ServerState.{live};
ghost use Rattle.pg_cluster.specs.Completing.{NoneComplete};
ghost use Rattle.pg_model.specs.Facts.{ServerFacts, fresh, is_replica, is_down, is_up, is_running};
ghost use Rattle.pg_model.specs.Running.{promoted, replica_started, primary_started, stopping, crashed, wiped, restarted, ticked, delayed, ticked_unless_live};
ghost use Rattle.pg_model.specs.Replication.{following, confirming, next_acknowledged, acknowledged, requiring};
ghost use Rattle.pg_cluster.specs.InStep.{Forgets, Renews, CatchesUpAt, AreInStep, is_place};
ghost use Rattle.pg_model.specs.CatchingUp.{log_position_of, upstream_number_of};
ghost use Rattle.pg_cluster.specs.Servers.{without_spare, entry_at, entry_for, after_entry, committed_at, news_at, streamed_at};
ghost use Rattle.pat_base.specs.Moments.{latest};

mod rewinding;

use crate::completing::first_completion;
use pat_base::{Lsn, MemberId, Required, ServerId, Ticks};
use pg_model::{CaughtUp, CommitFault, Server, Streamed};
use std::alloc::{AllocError, Global};
use std::marker::Model;
use wal_model::Entry;

/// The servers of a cluster: at each place, counted from 0, that of the member of this number.
///
/// It keeps for each server whether it is known to be in step: it follows one of these servers, that one's log begins
/// with its own, and both are on one timeline with one history. A replica in step isn't compared with its upstream:
/// receiving costs the entries that move. Logs and histories are compared after a promotion and after a change of
/// upstream, until the replica received once; a log that diverged mostly shows that by its last entry alone.
#[derive(Drop)]
pub struct Servers {
    servers: Vec<Server>,
    in_step: Vec<bool>,
}

impl Model for Servers {
    ghost use Rattle.std.specs.Prelude.{List, map};
    ghost use Rattle.pg_model.specs.Facts.{ServerFacts};
    ghost use Rattle.pg_cluster.specs.Servers.{without_spare};
    ghost use Rattle.pg_cluster.specs.InStep.{MarksHold};
    ghost use Rattle.pg_model.specs.CatchingUp.{log_position_of};

    ghost Value = { List ServerFacts };

    ghost view = { λ cluster. map without_spare cluster.servers.items };

    ghost invariant = { λ cluster. MarksHold cluster.in_step.items (map log_position_of cluster.servers.items) };
}

impl Servers {
    /// So many running replicas on timeline 1, which follow nobody, each with a log of so many bytes of data, at most 2^63.
    /// It fails only for want of memory.
    pub fn new(alloc: Global, count: usize, base: u64) -> Result<Servers, AllocError>
        requires { base ≤ 2 ^ 63 }
        ensures { IfOk result (λ servers. servers ≡ replicate count (fresh base)) }
    {
        let servers = replicas(alloc, count, base)?;
        let in_step = vec![in alloc; false; count]?;
        Ok(Servers { servers, in_step })
    }

    /// How many servers there are.
    pub fn len(&self) -> usize
        ensures { result ≡ length self.now }
    {
        self.servers.len()
    }

    /// Whether there is no server.
    pub fn is_empty(&self) -> bool
        ensures { IsTrue result ↔ (self.now ≡ []) }
    {
        self.servers.is_empty()
    }

    /// The server at a place, counted from 0. `None` exactly past the last one.
    pub fn get(&self, place: usize) -> Option<&Server>
        ensures { option_map without_spare (option_copied result) ≡ slice_get self.now place }
    {
        self.servers.get(place)
    }

    /// Promotes the server at a place, if there is one there, as `Server::promote` does. That server runs as a replica on a
    /// timeline below 2^60. It fails only for want of memory, and then all stay as they were. It costs time in the number
    /// of servers.
    pub fn promote(&mut self, place: usize, now: Ticks) -> Result<(), AllocError>
        requires { IfSome (slice_get self.old place) (λ s. IsTrue (is_replica s.state) × (s.timeline < 2 ^ 60)) }
        ensures ok { OnOk result (self.new ≡ with_changed self.old place promoted) }
        ensures err { OnErr result (self.new ≡ self.old) }
    {
        if place >= self.servers.len() {
            return Ok(());
        }
        let server = &mut self.servers[place];
        server.reserve()?;
        server.promote(now).unwrap();
        forget(&mut self.in_step, &self.servers, place);
        Ok(())
    }

    /// Ends the server at a place, if there is one there, without a shutdown, as `Server::crash` does: also a stopped one is
    /// crashed then.
    pub fn crash(&mut self, place: usize)
        ensures { self.new ≡ with_changed self.old place crashed }
    {
        if place < self.servers.len() {
            self.servers[place].crash();
        }
    }

    /// Lets the server at a place, if there is one there, follow another server: a replica receives from that one from now
    /// on, and any other from when it runs as a replica. A divergence that was noted is forgotten.
    pub fn follow(&mut self, place: usize, upstream: ServerId)
        ensures { self.new ≡ with_changed self.old place (following upstream) }
    {
        if place >= self.servers.len() {
            return;
        }
        let server = &mut self.servers[place];
        let is_same = follows(server, upstream.number as usize);
        server.set_upstream(upstream);
        self.in_step[place] &= is_same;
    }

    /// Starts the server at a place, if there is one there, as a replica of a server, or of none, as `Server::start_replica`
    /// does. That server is stopped or crashed. The moment is at most 2^62 ticks.
    pub fn start_replica(&mut self, place: usize, now: Ticks, upstream: Option<ServerId>)
        requires moment { now.0 ≤ latest }
        requires down { IfSome (slice_get self.old place) (λ s. IsTrue (is_down s.state)) }
        ensures { self.new ≡ with_changed self.old place (replica_started now upstream) }
    {
        if place >= self.servers.len() {
            return;
        }
        let server = &mut self.servers[place];
        let is_same = match upstream {
            Some(upstream) => follows(server, upstream.number as usize),
            None => false,
        };
        server.start_replica(now, upstream).unwrap();
        self.in_step[place] &= is_same;
    }

    /// Starts the server at a place, if there is one there, as a primary again, as `Server::start_primary` does. That server
    /// is stopped or crashed, and its last run was a primary. The moment is at most 2^62 ticks.
    pub fn start_primary(&mut self, place: usize, now: Ticks)
        requires moment { now.0 ≤ latest }
        requires down { IfSome (slice_get self.old place) (λ s. IsTrue (is_down s.state && s.was_primary)) }
        ensures { self.new ≡ with_changed self.old place (primary_started now) }
    {
        if place >= self.servers.len() {
            return;
        }
        let server = &mut self.servers[place];
        server.start_primary(now).unwrap();
    }

    /// Shuts down the server at a place, if there is one there, as `Server::stop` does. That server runs or starts. The
    /// moment is at most 2^62 ticks.
    pub fn stop(&mut self, place: usize, now: Ticks)
        requires moment { now.0 ≤ latest }
        requires up { IfSome (slice_get self.old place) (λ s. IsTrue (is_up s.state)) }
        ensures { self.new ≡ with_changed self.old place (stopping now) }
    {
        if place >= self.servers.len() {
            return;
        }
        let server = &mut self.servers[place];
        server.stop(now).unwrap();
    }

    /// Removes the data of the server at a place, if there is one there, as `Server::wipe` does. That server accepts no
    /// writes, and won't when a start of it is complete. It costs time in the number of servers.
    pub fn wipe(&mut self, place: usize)
        requires { IfSome (slice_get self.old place) (λ s. live s.state ≡ false) }
        ensures { self.new ≡ with_changed self.old place wiped }
    {
        if place >= self.servers.len() {
            return;
        }
        let server = &mut self.servers[place];
        server.wipe().unwrap();
        forget(&mut self.in_step, &self.servers, place);
    }

    /// Restarts the server at a place, if there is one there, as `Server::restart` does. That server runs. The moment is at
    /// most 2^62 ticks.
    pub fn restart(&mut self, place: usize, now: Ticks)
        requires moment { now.0 ≤ latest }
        requires running { IfSome (slice_get self.old place) (λ s. IsTrue (is_running s.state)) }
        ensures { self.new ≡ with_changed self.old place (restarted now) }
    {
        if place >= self.servers.len() {
            return;
        }
        let server = &mut self.servers[place];
        server.restart(now).unwrap();
    }

    /// Completes a start or a stop of the server at a place, if there is one there and its moment has come.
    pub fn complete(&mut self, place: usize, now: Ticks)
        ensures { self.new ≡ with_changed self.old place (ticked now) }
    {
        if place < self.servers.len() {
            self.servers[place].tick(now);
        }
    }

    /// Sets how long later stops and starts of the server at a place take, if there is one there, each only where it is
    /// given, and each at most 2^40 ticks.
    pub fn set_delays(&mut self, place: usize, stop: Option<Ticks>, start: Option<Ticks>)
        requires stop { ForSome stop (λ delay. delay.0 ≤ 2 ^ 40) }
        requires start { ForSome start (λ delay. delay.0 ≤ 2 ^ 40) }
        ensures { self.new ≡ with_changed self.old place (delayed stop start) }
    {
        if place < self.servers.len() {
            self.servers[place].set_delays(stop, start);
        }
    }

    /// Appends a commit of so many bytes to the log of the server at a place, and answers its entry, which then waits
    /// for acknowledgement. `None` exactly where there is no server, it doesn't accept writes, or its log would end past
    /// 2^63 bytes; then all stay as they were. It fails only for want of memory, and then too. It costs constant time
    /// beside the log's growth.
    pub fn commit(
        &mut self,
        place: usize,
        serial: u64,
        bytes: u64,
    ) -> Result<Option<Entry>, AllocError>
        ensures entry { IfOk result (λ entry. entry ≡ entry_for self.old place serial bytes) }
        ensures ok { OnOk result (self.new ≡ committed_at self.old place (entry_for self.old place serial bytes)) }
        ensures err { OnErr result (self.new ≡ self.old) }
    {
        if place >= self.servers.len() {
            return Ok(None);
        }
        let server = &mut self.servers[place];
        let Some(entry) = commit_entry(server, serial, bytes)? else {
            return Ok(None);
        };
        self.in_step[place] = false;
        Ok(Some(entry))
    }

    /// Lets the server at a place, if there is one there, receive from the server at another one at most so many entries,
    /// with the timeline and the history, and answers what it got, as `Server::stream` does. The server at the first place
    /// runs as a replica. `None` exactly where that changes nothing: one of the two is absent, the upstream doesn't accept
    /// writes, a divergence was found before, or there is nothing to receive. It fails only for want of memory, and then
    /// all stay as they were. It costs the entries that move, and time in the number of servers; only a replica that isn't
    /// known to be in step is compared with the other server.
    pub fn stream(
        &mut self,
        place: usize,
        from: usize,
        most: usize,
    ) -> Result<Option<Streamed>, AllocError>
        requires { IfSome (slice_get self.old place) (λ s. IsTrue (is_replica s.state)) }
        ensures news { IfOk result (λ news. news ≡ news_at self.old place from most) }
        ensures ok { OnOk result (self.new ≡ streamed_at self.old place from most) }
        ensures err { OnErr result (self.new ≡ self.old) }
    {
        let count = self.servers.len();
        if place >= count || from >= count || place == from {
            return Ok(None);
        }
        let is_upstream = follows(&self.servers[place], from);
        let in_step = self.in_step[place] & is_upstream;
        let caught_up = catch_up_between(&mut self.servers, place, from, most, in_step)?;
        let renewed = caught_up.received & !in_step;
        renew(
            &mut self.in_step,
            &self.servers,
            place,
            is_upstream,
            renewed,
        );
        Ok(caught_up.news)
    }

    /// Records at the server at a place, if there is one there, up to where a member has flushed its log.
    pub fn confirm(&mut self, place: usize, by: MemberId, end: Lsn)
        ensures { self.new ≡ with_changed self.old place (confirming by end) }
    {
        if place < self.servers.len() {
            self.servers[place].confirm(by, end);
        }
    }

    /// Takes the oldest waiting commit of the server at a place, where it may be acknowledged, and answers its number.
    /// `None` exactly otherwise, and then all stay as they were.
    pub fn next_acknowledged(&mut self, place: usize) -> Option<u64>
        ensures commit { result ≡ option_and_then next_acknowledged (slice_get self.old place) }
        ensures after { self.new ≡ with_changed self.old place acknowledged }
    {
        if place >= self.servers.len() {
            return None;
        }
        self.servers[place].next_acknowledged()
    }

    /// Sets whose confirmation the commits of the server at a place wait for, if there is one there.
    pub fn set_required(&mut self, place: usize, required: Required)
        ensures { self.new ≡ with_changed self.old place (requiring required) }
    {
        if place < self.servers.len() {
            self.servers[place].set_required(required);
        }
    }

    /// Completes each start and each stop whose moment has come, but for a start as a primary and the stop of one:
    /// those are told by events of their own, and whoever tells of one calls `complete`.
    pub fn tick(&mut self, now: Ticks)
        ensures { self.new ≡ map (ticked_unless_live now) self.old }
    {
        tick_all(&mut self.servers, now);
    }

    /// When the next start or stop is complete, but at most a given moment: none is before it, and where it is less than the most
    /// one is at it.
    pub fn next_completion(&self, most: Ticks) -> Ticks
        ensures most { result.0 ≤ most.0 }
        ensures before { (now : ℕ) → now < result.0 → NoneComplete now self.now }
        ensures least { result.0 < most.0 → ¬ (NoneComplete result.0 self.now) }
    {
        first_completion(&self.servers, most)
    }
}

/// So many new replicas.
fn replicas(alloc: Global, count: usize, base: u64) -> Result<Vec<Server>, AllocError>
    requires { base ≤ 2 ^ 63 }
    ensures { IfOk result (λ servers. servers.items ≡ replicate count (fresh base)) }
{
    let mut servers = Vec::with_capacity(alloc, count)?;
    for _made in 0..count {
        servers.push(Server::new(alloc, base)?)?;
    }
    Ok(servers)
}

/// Completes each start and each stop whose moment has come, but for those of primaries.
fn tick_all(servers: &mut [Server], now: Ticks)
    ensures { servers.new ≡ map (ticked_unless_live now) servers.old }
{
    for place in 0..servers.len() {
        tick_one(&mut servers[place], now);
    }
}

/// Completes a start or a stop whose moment has come, but for that of a primary.
fn tick_one(server: &mut Server, now: Ticks)
    ensures { server.new ≡ ticked_unless_live now server.old }
{
    if !server.live() {
        server.tick(now);
    }
}

/// Whether a server follows the one at a place.
fn follows(server: &Server, place: usize) -> bool
    ensures { result ≡ is_place place (upstream_number_of server.now.upstream) }
{
    match server.upstream() {
        Some(upstream) => upstream.number as usize == place,
        None => false,
    }
}

/// Clears the mark of the server at a place, and of each that follows it.
fn forget(in_step: &mut [bool], servers: &[Server], place: usize)
    requires { length in_step.old ≡ length servers.now }
    ensures { Forgets in_step.old in_step.new (map log_position_of servers.now) place }
{
    for k in 0..in_step.len() {
        let concerned = is_concerned(k, &servers[k], place);
        in_step[k] &= !concerned;
    }
}

/// Where a replica received that wasn't in step, clears its mark and those of its followers, and sets its own one as
/// told.
fn renew(in_step: &mut [bool], servers: &[Server], place: usize, mark: bool, renewed: bool)
    requires one_each { length in_step.old ≡ length servers.now }
    requires within { place < length servers.now }
    ensures { Renews renewed mark in_step.old in_step.new (map log_position_of servers.now) place }
{
    if !renewed {
        return;
    }
    forget(in_step, servers, place);
    in_step[place] = mark;
}

/// Whether the server at a place is the one at another place, or follows that one.
fn is_concerned(k: usize, server: &Server, place: usize) -> bool
    ensures { result ≡ ((k == place) || is_place place (upstream_number_of server.now.upstream)) }
{
    k == place || follows(server, place)
}

/// Appends a commit, and answers its entry. `None` exactly where the server doesn't accept writes, or its log would end
/// past 2^63 bytes. It fails only for want of memory.
fn commit_entry(server: &mut Server, serial: u64, bytes: u64) -> Result<Option<Entry>, AllocError>
    ensures entry { IfOk result (λ entry. entry ≡ entry_at (Some server.old) serial bytes) }
    ensures ok { OnOk result (server.new ≡ after_entry (entry_at (Some server.old) serial bytes) server.old) }
    ensures err { OnErr result (server.new ≡ server.old) }
{
    let entry = Entry {
        serial,
        timeline: server.timeline(),
        bytes,
    };
    match server.commit(serial, bytes) {
        Ok(()) => Ok(Some(entry)),
        Err(CommitFault::Memory) => Err(AllocError),
        Err(_) => Ok(None),
    }
}

/// Lets the replica at a place receive from the server at another one. One that is known to be in step with it isn't
/// compared.
fn catch_up_between(
    servers: &mut [Server],
    place: usize,
    from: usize,
    most: usize,
    in_step: bool,
) -> Result<CaughtUp, AllocError>
    requires apart { place ≢ from }
    requires place { place < length servers.old }
    requires upstream { from < length servers.old }
    requires replica { (s : ServerFacts) → slice_get servers.old place ≡ Some s → IsTrue (is_replica s.state) }
    requires in_step { IsTrue in_step → AreInStep servers.old place from }
    ensures ok { IfOk result (λ caught_up. CatchesUpAt servers.old servers.new place from most caught_up.news caught_up.received) }
    ensures err { OnErr result (servers.new ≡ servers.old) }
{
    if place < from {
        let (low, high) = servers.split_at_mut(from);
        low[place].catch_up(&high[0], most, in_step)
    } else {
        let (low, high) = servers.split_at_mut(place);
        high[0].catch_up(&low[from], most, in_step)
    }
}
