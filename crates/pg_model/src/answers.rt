//! What the calls of a server answer.
ghost use Rattle.std.specs.Prelude.{◌≡◌};
ghost use Rattle.pg_model.specs.declared.answers.CommitFault.TheVariants as commit_faults;
ghost use Rattle.pg_model.specs.declared.answers.StreamFault.TheVariants as stream_faults;
ghost use Rattle.pg_model.specs.declared.answers.PgFault.TheVariants as pg_faults;

use pat_base::{Lsn, State};
use std::alloc::AllocError;
use thiserror::Error;

/// The server is in this state, in which the call can't be made. It is as it was.
#[derive(Clone, Copy, Debug, PartialEq, Eq, Error)]
#[error("the server is in another state")]
pub struct InState(pub State);

/// What a replica got from its upstream, by PostgreSQL's documentation, "Streaming Replication".
#[derive(Clone, Copy, Debug, PartialEq, Eq)]
pub enum Streamed {
    /// Nothing, since the upstream doesn't accept writes.
    NotConnected,
    /// Nothing, since the logs part at this position: what lies before it is all that they have in common.
    Diverged(Lsn),
    /// The next entries of the upstream's log, so many, 0 where it has all of them; and its timeline and history.
    Received(usize),
}

/// Why a replica got no answer. It is as it was.
#[derive(Clone, Copy, Debug, PartialEq, Eq, Error)]
pub enum StreamFault {
    /// It is in this state, and runs as no replica.
    #[error("the server is in another state")]
    InState(State),
    /// There was no memory for the entries or the history.
    #[error("out of memory")]
    Memory,
}

/// Why a commit was refused. The server is as it was.
#[derive(Clone, Copy, Debug, PartialEq, Eq, Error)]
pub enum CommitFault {
    /// The server doesn't accept writes.
    #[error("the server is no primary")]
    NotPrimary,
    /// The log would end past 2^63 bytes.
    #[error("the log is full")]
    Full,
    /// There was no memory for one more entry.
    #[error("out of memory")]
    Memory,
}

/// Why a server wasn't rewound or cloned. It is as it was.
#[derive(Clone, Copy, Debug, PartialEq, Eq, Error)]
pub enum PgFault {
    /// It is in this state, in which it can't be.
    #[error("the server is in another state")]
    InState(State),
    /// The source doesn't accept writes.
    #[error("the source is no primary")]
    NotPrimary,
    /// There was no memory for the log or the history.
    #[error("out of memory")]
    Memory,
}

impl From<AllocError> for StreamFault {
    ghost from_gives = { λ _ fault. fault ≡ stream_faults.Memory };

    fn from(_: AllocError) -> StreamFault {
        StreamFault::Memory
    }
}

impl From<AllocError> for CommitFault {
    ghost from_gives = { λ _ fault. fault ≡ commit_faults.Memory };

    fn from(_: AllocError) -> CommitFault {
        CommitFault::Memory
    }
}

impl From<AllocError> for PgFault {
    ghost from_gives = { λ _ fault. fault ≡ pg_faults.Memory };

    fn from(_: AllocError) -> PgFault {
        PgFault::Memory
    }
}
