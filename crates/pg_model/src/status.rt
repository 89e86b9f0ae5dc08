//! What an agent sees of its server.
ghost use Rattle.std.specs.Prelude.{◌≡◌, ◌≤◌, ◌<◌, ◌^◌, ◌==◌};
ghost use Rattle.pg_model.specs.Facts.{is_down, is_up, is_replica};
ghost use Rattle.pg_model.specs.Status.{status_of, status_promoted, status_started, status_starting, status_replica_started, status_primary_started, status_ending, status_stopping, status_wiped, status_restarted, status_following};
ghost use Rattle.pat_base.specs.Moments.{latest};

use crate::Server;
use crate::server::is_up;
use pat_base::{Lsn, ServerId, State, Ticks};

/// What an agent sees of its server: all that it keeps but for its log, its history, and what its commits wait for. `end` is
/// where its log ends, which is there where it has one.
#[derive(Clone, Copy, Debug, PartialEq, Eq)]
pub struct ServerStatus {
    pub state: State,
    pub timeline: u64,
    pub end: Option<Lsn>,
    pub upstream: Option<ServerId>,
    pub receives: bool,
    pub diverged: bool,
    pub was_primary: bool,
    pub stop_delay: Ticks,
    pub start_delay: Ticks,
}

impl Server {
    /// What an agent sees of it. The delays are at most 2^40 ticks.
    pub fn status(&self) -> ServerStatus
        ensures status { result ≡ status_of self.now }
        ensures stop { result.stop_delay.0 ≤ 2 ^ 40 }
        ensures start { result.start_delay.0 ≤ 2 ^ 40 }
    {
        ServerStatus {
            state: self.state(),
            timeline: self.timeline(),
            end: self.log().map(|log| log.end()),
            upstream: self.upstream(),
            receives: self.receives(),
            diverged: self.diverged(),
            was_primary: self.was_primary(),
            stop_delay: self.stop_delay(),
            start_delay: self.start_delay(),
        }
    }
}

/// What orders make of a server, as it is seen. An order that a server refuses leaves it as it is.
impl ServerStatus {
    /// What `Server::promote` makes of it.
    pub fn promote(&mut self)
        requires { self.old.timeline < 2 ^ 60 }
        ensures { self.new ≡ status_promoted self.old }
    {
        if let State::Replica = self.state {
            self.state = State::Primary;
            self.timeline += 1;
            self.was_primary = true;
        }
    }

    /// What `Server::start_replica` makes of it.
    pub fn start_replica(&mut self, now: Ticks, upstream: Option<ServerId>)
        requires moment { now.0 ≤ latest }
        requires delay { self.old.start_delay.0 ≤ 2 ^ 40 }
        ensures { self.new ≡ status_replica_started now upstream self.old }
    {
        if self.state.is_down() {
            self.upstream = upstream;
            self.was_primary = false;
            self.start(false, now);
        }
    }

    /// What `Server::start_primary` makes of it.
    pub fn start_primary(&mut self, now: Ticks)
        requires moment { now.0 ≤ latest }
        requires delay { self.old.start_delay.0 ≤ 2 ^ 40 }
        ensures { self.new ≡ status_primary_started now self.old }
    {
        if self.state.is_down() && self.was_primary {
            self.start(true, now);
        }
    }

    /// What `Server::stop` makes of it.
    pub fn stop(&mut self, now: Ticks)
        requires moment { now.0 ≤ latest }
        requires delay { self.old.stop_delay.0 ≤ 2 ^ 40 }
        ensures { self.new ≡ status_stopping now self.old }
    {
        if is_up(self.state) {
            self.end(now);
        }
    }

    /// What `Server::wipe` makes of it.
    pub fn wipe(&mut self)
        ensures { self.new ≡ status_wiped self.old }
    {
        if !self.state.live() {
            self.state = State::Creating;
            self.end = None;
            self.diverged = false;
        }
    }

    /// What `Server::restart` makes of it.
    pub fn restart(&mut self, now: Ticks)
        requires moment { now.0 ≤ latest }
        requires delay { self.old.start_delay.0 ≤ 2 ^ 40 }
        ensures { self.new ≡ status_restarted now self.old }
    {
        match self.state {
            State::Primary => self.start(true, now),
            State::Replica => {
                self.was_primary = false;
                self.start(false, now);
            }
            _ => {}
        }
    }

    /// What `Server::follow` makes of it.
    pub fn follow(&mut self, upstream: ServerId)
        ensures { self.new ≡ status_following upstream self.old }
    {
        if let State::Replica = self.state {
            self.upstream = Some(upstream);
            self.diverged = false;
        }
    }

    /// It starts, at once or after the delay.
    fn start(&mut self, as_primary: bool, now: Ticks)
        requires moment { now.0 ≤ latest }
        requires delay { self.old.start_delay.0 ≤ 2 ^ 40 }
        ensures { self.new ≡ status_starting as_primary now self.old }
    {
        if self.start_delay == Ticks(0) {
            self.complete_start(as_primary);
        } else {
            self.state = State::Starting {
                as_primary,
                at: now + self.start_delay,
            };
        }
    }

    /// It runs from now on, as a replica or as a primary.
    fn complete_start(&mut self, as_primary: bool)
        ensures { self.new ≡ status_started as_primary self.old }
    {
        if as_primary {
            self.state = State::Primary;
            self.was_primary = true;
        } else {
            self.state = State::Replica;
        }
    }

    /// It shuts down, at once or after the delay.
    fn end(&mut self, now: Ticks)
        requires moment { now.0 ≤ latest }
        requires delay { self.old.stop_delay.0 ≤ 2 ^ 40 }
        ensures { self.new ≡ status_ending now self.old }
    {
        self.state = if self.stop_delay == Ticks(0) {
            State::Stopped
        } else {
            State::Stopping {
                was_primary: self.state == State::Primary,
                at: now + self.stop_delay,
            }
        };
    }
}
