//! Why a member does not race.
use crate::MemberId;

/// Why a member doesn't race for the leader key.
#[derive(Clone, Copy, Debug, PartialEq, Eq)]
pub enum Ineligibility {
    /// Its server is no replica.
    NotRunning,
    /// Its tags don't let it fail over.
    NoFailover,
    /// The cluster is paused, and no failover names this member.
    Paused,
    /// A failover names another member.
    Candidate(MemberId),
    /// It isn't named in the sync key.
    NotSync,
    /// Its log ends too far behind the leader's.
    TooFarBehind,
    /// It isn't listed in the failsafe key.
    NotListed,
    /// It waits out a hold.
    Hold,
    /// This member accepts writes.
    OtherWrites(MemberId),
    /// This member's log is longer.
    Ahead(MemberId),
    /// Fewer standbys can be compared than may lack an acknowledged commit, with quorum commit.
    TooFewAnswers,
    /// This member's log ends at the same position, and its priority is higher.
    Priority(MemberId),
}
