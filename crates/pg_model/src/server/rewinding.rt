//! The ways back of a server.
ghost use Rattle.std.specs.Prelude.{◌≡◌, ◌↔◌, IsTrue, IsSome, Some, false, IfOk, IfErr, OnOk, OnErr, IsErrOf};
ghost use Rattle.pat_base.specs.Lsn.{lsn_at};
ghost use Rattle.pat_base.specs.ServerState.{writes};
ghost use Rattle.wal_model.specs.Log.{common_of, fork_of};
ghost use Rattle.pg_model.specs.Facts.{entries_of, is_creating};
ghost use Rattle.pg_model.specs.Rewinding.{is_rewindable, rewound, cloned, NamesState};
ghost use Rattle.pg_model.specs.declared.answers.PgFault.TheVariants as pg_faults;

use super::wal;
use crate::{PgFault, Server};
use pat_base::{Lsn, State};
use wal_model::Wal;

impl Server {
    /// Goes back to what its log has in common with the log of a source that accepts writes, as `pg_rewind` does
    /// (PostgreSQL's documentation, "pg_rewind"), and runs as a replica from then on, on the source's timeline with its
    /// history; whom it follows stays. It answers where the log ends then. What only it had is lost. `InState` exactly
    /// unless it runs as a replica or was shut down, and then `NotPrimary` exactly where the source doesn't accept writes;
    /// `Memory` only for want of memory. A refused server stays as it was.
    pub fn rewind(&mut self, source: &Server) -> Result<Lsn, PgFault>
        ensures in_state { IsErrOf result (pg_faults.InState self.old.state) ↔ (is_rewindable self.old.state ≡ false) }
        ensures state { IfErr result (NamesState self.old.state) }
        ensures not_primary { IsErrOf result pg_faults.NotPrimary ↔ (IsTrue (is_rewindable self.old.state) × (writes source.now.state ≡ false)) }
        ensures fork { IfOk result (λ fork. fork ≡ lsn_at (fork_of (entries_of self.old.log) (entries_of source.now.log))) }
        ensures ok { OnOk result (self.new ≡ rewound self.old source.now) }
        ensures err { OnErr result (self.new ≡ self.old) }
    {
        if !is_rewindable(self.state) {
            return Err(PgFault::InState(self.state));
        }
        if !source.writes() {
            return Err(PgFault::NotPrimary);
        }
        self.history.try_clone_from(&source.history)?;
        let fork = keep_common(&mut self.log, wal(&source.log));
        self.timeline = source.timeline;
        self.diverged = false;
        self.was_primary = false;
        self.state = State::Replica;
        Ok(fork)
    }

    /// Takes the log, the timeline and the history of a source that accepts writes, as `pg_basebackup` does (PostgreSQL's
    /// documentation, "pg_basebackup"), and runs as a replica from then on; whom it follows stays. `InState` exactly unless
    /// it waits for a copy, and then `NotPrimary` exactly where the source doesn't accept writes; `Memory` only for want of
    /// memory. A refused server stays as it was.
    pub fn clone_from(&mut self, source: &Server) -> Result<(), PgFault>
        ensures in_state { IsErrOf result (pg_faults.InState self.old.state) ↔ (is_creating self.old.state ≡ false) }
        ensures state { IfErr result (NamesState self.old.state) }
        ensures not_primary { IsErrOf result pg_faults.NotPrimary ↔ (IsTrue (is_creating self.old.state) × (writes source.now.state ≡ false)) }
        ensures ok { OnOk result (self.new ≡ cloned self.old source.now) }
        ensures err { OnErr result (self.new ≡ self.old) }
    {
        let State::Creating = self.state else {
            return Err(PgFault::InState(self.state));
        };
        if !source.state.writes() {
            return Err(PgFault::NotPrimary);
        }
        let log = wal(&source.log).try_clone()?;
        self.history.try_clone_from(&source.history)?;
        self.log = Some(log);
        self.timeline = source.timeline;
        self.diverged = false;
        self.was_primary = false;
        self.state = State::Replica;
        Ok(())
    }
}

/// Whether a server in this state may be rewound.
pub fn is_rewindable(state: State) -> bool
    ensures { result ≡ is_rewindable state }
{
    matches!(state, State::Replica | State::Stopped)
}

/// Cuts a log to what it has in common with another one, and answers where it ends then.
fn keep_common(log: &mut Option<Wal>, source: &Wal) -> Lsn
    requires { IsSome log.old }
    ensures log { log.new ≡ Some (common_of (entries_of log.old) source.now) }
    ensures fork { result ≡ lsn_at (fork_of (entries_of log.old) source.now) }
{
    let Some(log) = log else {
        unreachable!();
    };
    log.truncate(log.common(source));
    log.end()
}
