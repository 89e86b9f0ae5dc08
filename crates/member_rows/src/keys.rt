//! What the keys of a cluster tell beside its members: who leads, who replicates synchronously, and where the leader's log ends.
ghost use Rattle.std.specs.Prelude.{◌≡◌};
ghost use Rattle.member_rows.specs.Keys.{keys_in, lag_bytes};

use cluster_view::{LeaderEntry, Snapshot};
use pat_base::Lsn;
use store_keys::SyncKey;

/// What a list of members reads of a snapshot beside the members.
#[derive(Clone, Copy, PartialEq, Eq)]
pub struct ClusterKeys {
    /// Who leads.
    pub leader: Option<LeaderEntry>,
    /// Who replicates synchronously.
    pub sync: Option<SyncKey>,
    /// Where the leader's log ends.
    pub status: Option<Lsn>,
}

/// Who leads, who replicates synchronously, and where the leader's log ends.
pub fn keys_in(snapshot: &Snapshot) -> ClusterKeys
    ensures { result ≡ keys_in snapshot.now }
{
    ClusterKeys {
        leader: snapshot.leader(),
        sync: snapshot.sync(),
        status: snapshot.status(),
    }
}

/// How many bytes a member's log ends behind where the leader's does: 0 where it ends further on, or the leader told nothing
/// yet, as in Patroni. `None` exactly where the member's own end isn't known.
pub fn lag_bytes(status: Option<Lsn>, end: Option<Lsn>) -> Option<u64>
    ensures { result ≡ lag_bytes status end }
{
    match (status, end) {
        (_, None) => None,
        (None, Some(_)) => Some(0),
        (Some(status), Some(end)) => Some(status.position.saturating_sub(end.position)),
    }
}
