//! What comes.
use pat_base::MemberId;

/// Where a client is: at the REST interface of a member's agent, or at the control port.
#[derive(Clone, Copy, Debug, PartialEq, Eq)]
pub enum Port {
    Member(MemberId),
    Control,
}

/// What comes from outside. Clients are numbered in the order in which they come, from 1.
#[derive(Drop)]
pub enum Arrival {
    /// The next tick of 100 ms is due.
    Due,
    /// The client of this number came to this port.
    Opened(u64, Port),
    /// The client of this number brought these bytes: the next of them, in as many pieces as it likes.
    Bytes(u64, Vec<u8>),
    /// The client of this number brings no more bytes, and may still be answered.
    Ended(u64),
    /// The client of this number is gone: a read or a write failed, or it had all the time that a client has.
    Failed(u64),
    /// Nothing more comes.
    Over,
}
