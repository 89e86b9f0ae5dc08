//! The steps by which a leader changes its standbys with quorum commit, and what they turn on.

use crate::quorums::{Need, Quorum};
use pat_base::MemberSet;

/// The next step of a leader with quorum commit towards the standbys that are wanted. One step is made at a time, so
/// that the standbys that the sync key names and those that commits wait for always overlap.
#[derive(Clone, Copy, PartialEq, Eq)]
pub enum QuorumPlan {
    /// Nothing is to be changed.
    Keep,
    /// The sync key is to be removed.
    SwitchOff,
    /// The sync key is to name this leader, and no standby.
    Mark,
    /// The sync key is to name these standbys, with this number.
    Publish(Quorum),
    /// Commits are to wait for so many of these.
    Require(Need),
}

/// What a leader has, and what it aims at.
#[derive(Clone, Copy)]
pub(crate) struct Aim {
    /// What the sync key publishes.
    pub key: Quorum,
    /// Whom commits wait for.
    pub need: Need,
    /// Who is to be named as standby.
    pub wanted: MemberSet,
    /// For how many of these commits are to wait, or for all where they are fewer.
    pub count: u64,
    /// Whether as many as commits wait for have confirmed the noted position.
    pub confirmed: bool,
}
