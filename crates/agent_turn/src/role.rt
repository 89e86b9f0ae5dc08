//! What an agent is to its cluster, with the values that say so.

use agent_model::Why;
use leader_key::{Armed, Lease, Writer};

/// What an agent is to its cluster. The values can't be copied or dropped: who has none has no leader key.
pub enum Role {
    /// It has no lease.
    Follower,
    /// It has the leader key, and its server isn't up to write.
    Holder(Lease),
    /// It has the leader key and an armed watchdog, and is about to begin.
    Ready(Armed),
    /// Its server accepts writes, or will when its start is complete.
    Leader(Writer),
    /// It ends its server, and has the leader key until that has ended.
    Ending(Writer, Why),
    /// Its server accepts writes, or will, while it has no lease.
    Unleased,
}
