//! The message that an input of an agent acts on.

use pat_base::Ticks;

/// The number of the message that an agent heard, counted from 1, the incarnation that it names, and the moment at which it was sent; all 0
/// where the agent was woken.
#[derive(Clone, Copy, PartialEq, Eq)]
pub struct HeardMessage {
    pub number: u64,
    pub incarnation: u64,
    pub sent: Ticks,
}
