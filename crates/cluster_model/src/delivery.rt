//! Whether a message can come to its receiver.

/// What stands between a message and its receiver.
#[derive(Clone, Copy, PartialEq, Eq)]
pub enum Delivery {
    /// Nothing.
    Open,
    /// Their link is cut.
    Cut,
    /// The receiver is suspended.
    Suspended,
    /// The agent that it is meant for has ended: none runs, or it answers a question of an earlier incarnation.
    Gone,
}
