//! The states of a PostgreSQL server, and what its commits wait for.
use crate::{MemberSet, Ticks};

/// The state of a server. Moments are counted in ticks of 100 ms from the start of the run.
#[derive(Clone, Copy, Debug, PartialEq, Eq)]
pub enum State {
    /// It has no data, and waits for a copy of another server.
    Creating,
    /// It was shut down in an orderly way.
    Stopped,
    /// It starts, and is ready at the moment `at`: as a primary, or as a replica.
    Starting { as_primary: bool, at: Ticks },
    /// It runs in recovery, as a replica of another server (PostgreSQL, "Log-Shipping Standby Servers").
    Replica,
    /// It runs and accepts writes.
    Primary,
    /// It shuts down, and has ended at the moment `at`. Until then one that was a primary accepts writes.
    Stopping { was_primary: bool, at: Ticks },
    /// It ended without a shutdown.
    Crashed,
}

impl State {
    ghost use Rattle.std.specs.Prelude.{◌≡◌};
    ghost use Rattle.pat_base.specs.ServerState.{is_down, is_primary, is_replica, live, writes};

    /// Whether a server in this state is down: it was shut down, or crashed.
    pub fn is_down(&self) -> bool
        ensures { result ≡ is_down self.now }
    {
        matches!(self, State::Stopped | State::Crashed)
    }

    /// Whether a server in this state runs as a replica, whether or not it receives.
    pub fn is_replica(&self) -> bool
        ensures { result ≡ is_replica self.now }
    {
        matches!(self, State::Replica)
    }

    /// Whether a server in this state runs as the primary.
    pub fn is_primary(&self) -> bool
        ensures { result ≡ is_primary self.now }
    {
        matches!(self, State::Primary)
    }

    /// Whether a server in this state accepts writes.
    pub fn writes(&self) -> bool
        ensures { result ≡ writes self.now }
    {
        match self {
            State::Primary => true,
            State::Stopping { was_primary, .. } => *was_primary,
            _ => false,
        }
    }

    /// Whether a server in this state accepts writes, or will when its start is complete.
    pub fn live(&self) -> bool
        ensures { result ≡ live self.now }
    {
        match self {
            State::Starting { as_primary, .. } => *as_primary,
            state => state.writes(),
        }
    }
}

/// Whose confirmation a commit of a primary waits for before it is acknowledged, as PostgreSQL's setting
/// `synchronous_standby_names` says (PostgreSQL, "Replication", under "Primary Server").
#[derive(Clone, Copy, Debug, PartialEq, Eq)]
pub enum Required {
    /// It waits for nobody.
    Nobody,
    /// It waits for any one replica.
    AnyOne,
    /// It waits for each of these replicas.
    All(MemberSet),
    /// It waits for so many of these replicas, whichever they are: quorum commit.
    AtLeast { number: u8, of: MemberSet },
}
