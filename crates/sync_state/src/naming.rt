//! Whom the sync key of a snapshot names.
ghost use Rattle.std.specs.Prelude.{◌≡◌};
ghost use Rattle.sync_state.specs.Published.{named_by, named_in, standbys_of, published_in};

use cluster_view::{Snapshot, is_named};
use pat_base::{MemberId, MemberSet};
use store_keys::SyncKey;

/// Whether the sync key names the member, as leader or as standby. `false` where the key was absent. Only a member that it
/// names may take over without losing commits (Patroni's documentation, "Replication modes"). It takes no memory.
pub fn named(seen: &Snapshot, member: MemberId) -> bool
    ensures { result ≡ named_in member seen.now }
{
    named_by(member, seen.sync())
}

fn named_by(member: MemberId, sync: Option<SyncKey>) -> bool
    ensures { result ≡ named_by member sync }
{
    match sync {
        None => false,
        Some(sync) => is_named(member, sync),
    }
}

/// The standbys that the sync key names: nobody where it was absent.
pub(crate) fn published(seen: &Snapshot) -> MemberSet
    ensures { result ≡ published_in seen.now }
{
    standbys_of(seen.sync())
}

fn standbys_of(sync: Option<SyncKey>) -> MemberSet
    ensures { result ≡ standbys_of sync }
{
    match sync {
        None => MemberSet { bits: 0 },
        Some(sync) => sync.standbys,
    }
}
