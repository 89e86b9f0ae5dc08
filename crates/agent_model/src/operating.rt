//! What an agent does for operators, and owes an answer for.

use operator_answers::Text;
use pat_base::{MemberId, Ticks};
use store_keys::FailoverKind;

/// What an agent asked the key store for on a request of an operator.
#[derive(Clone, Copy, PartialEq, Eq)]
pub enum Operation {
    /// That another member leads.
    FailingOver(FailoverKind),
    /// Another configuration.
    Configuring,
}

/// A request of an operator that waits for its result.
#[derive(Clone, Copy, PartialEq, Eq)]
pub struct Operating {
    /// Its number in the incarnation.
    pub request: u64,
    pub operation: Operation,
    /// The number of the agent's message that asked the key store.
    pub sequence: u64,
    /// When it was made.
    pub since: Ticks,
    /// Who led then, by the newest snapshot.
    pub leader: Option<MemberId>,
}

/// What an agent answers a request of an operator.
#[derive(Clone, Copy, PartialEq, Eq)]
pub enum Told {
    /// These words, with this status of HTTP (RFC 9110, "Status Codes").
    Text { status: u16, text: Text },
    /// The configuration was written: status 200, with the text of the newest one that the agent read.
    Written,
}
