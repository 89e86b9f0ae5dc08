//! Messages.
use crate::LinkEnd;
use pat_base::{PeerAnswer, Shared, Ticks};
use std::fmt;
use store_keys::{Expected, Key, Txn};

/// A message between an agent and the key store, or between two agents. `incarnation` and `sequence` name the question by the
/// incarnation of the agent that asks and by the number of the question in that incarnation; an answer has those of its question.
#[derive(Drop)]
pub struct Message {
    pub from: LinkEnd,
    pub to: LinkEnd,
    pub incarnation: u64,
    pub sequence: u64,
    pub body: Body,
}

/// What a message says.
#[derive(Drop)]
pub enum Body {
    /// To the store: what do you hold?
    Read,
    /// To the store: decide on this.
    Request(Shared<Txn>),
    /// The store's answer to `Read`. It carries a snapshot of the moment of its sending.
    Snapshot,
    /// The request that message `request` carried was granted; `leased` tells whether it gave or extended the lease of
    /// the leader key. It carries a snapshot too.
    Granted {
        request: u64,
        leased: bool,
    },
    /// The request that message `request` carried was refused, by this key and what was found there.
    Refused {
        request: u64,
        key: Key,
        found: Expected,
    },
    /// To another agent: how far is your server?
    Ask,
    /// An agent's answer to `Ask`.
    Answer(PeerAnswer),
    /// To another agent, by a leader that can't reach the store: may I stay primary for `ttl` ticks from now on?
    FailsafeRequest {
        ttl: Ticks,
    },
    /// An agent's answer to `FailsafeRequest`.
    FailsafeAnswer {
        accepted: bool,
    },
}

/// The kind of message in a word or two.
impl fmt::Display for Body {
    ghost use Rattle.std.specs.Prelude.{Some};
    ghost use Rattle.event_book.specs.Bodies.{body_text};

    ghost output = { λ body. Some (body_text body) };

    fn fmt<W: fmt::Write>(&self, f: &mut fmt::Formatter<W>) -> fmt::Result {
        match self {
            Body::Read => f.write_str("read"),
            Body::Request(txn) => {
                let kind = txn.get().kind();
                write!(f, "{kind}")
            }
            Body::Snapshot => f.write_str("snapshot"),
            Body::Granted { .. } => f.write_str("granted"),
            Body::Refused { .. } => f.write_str("refused"),
            Body::Ask => f.write_str("ask"),
            Body::Answer(_) => f.write_str("answer"),
            Body::FailsafeRequest { .. } => f.write_str("failsafe"),
            Body::FailsafeAnswer { .. } => f.write_str("failsafe answer"),
        }
    }
}
