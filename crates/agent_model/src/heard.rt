//! What an agent hears.

use cluster_view::Snapshot;
use lease_store::Granted;
use pat_base::{MemberId, PeerAnswer, Ticks};
use store_keys::{Expected, Key, OperatorAction};

/// What comes to an agent: a wake, an answer of the key store or of another member to the question of this number in its incarnation, a
/// question of another member, or what an operator asks.
#[derive(Drop)]
pub enum Heard {
    Wake,
    /// What the key store had when it answered.
    ReadAnswered {
        sequence: u64,
        snapshot: Snapshot,
    },
    /// A request was granted; with what the key store had then.
    Granted {
        sequence: u64,
        granted: Granted,
        snapshot: Snapshot,
    },
    /// A request was refused, by this key and what was found there.
    Mismatch {
        sequence: u64,
        key: Key,
        found: Expected,
    },
    /// Another member asks how far the server is, under this number of that one's incarnation.
    Asked {
        from: MemberId,
        incarnation: u64,
        sequence: u64,
    },
    /// Another member answers.
    Answered {
        sequence: u64,
        answer: PeerAnswer,
    },
    /// Another member, which leads without the key store, asks under this number of that one's incarnation to go on so for this
    /// span.
    FailsafeAsked {
        from: MemberId,
        incarnation: u64,
        sequence: u64,
        ttl: Ticks,
    },
    /// Another member acknowledges the failsafe request of this number, or refuses it, by a message that it sent at this moment.
    FailsafeAnswered {
        from: MemberId,
        sequence: u64,
        accepted: bool,
        sent: Ticks,
    },
    /// An operator asks for this, which passed its checks.
    Operated {
        action: OperatorAction,
    },
}
