//! What members answer one another.

use crate::{Lsn, MemberId, Tags};

/// How far a member's server is, as it answers another member that asks.
#[derive(Clone, Copy, Debug, PartialEq, Eq)]
pub struct PeerAnswer {
    /// The member that answers.
    pub member: MemberId,
    /// Whether its server accepts writes.
    pub writes: bool,
    /// Where its server's log ends. There exactly where it runs as a replica or as a primary.
    pub end: Option<Lsn>,
    /// What its configuration says of its part in the cluster.
    pub tags: Tags,
}
