//! Whom the sync key names as a synchronous standby.
ghost use Rattle.std.specs.Prelude.{◌≡◌};
ghost use Rattle.member_rows.specs.Standbys.{names_standby};

use cluster_view::is_standby;
use pat_base::MemberId;
use store_keys::SyncKey;

/// Whether a sync key is there and names the member as standby.
pub fn names_standby(sync: Option<SyncKey>, member: MemberId) -> bool
    ensures { result ≡ names_standby sync member }
{
    match sync {
        None => false,
        Some(sync) => is_standby(member, sync),
    }
}
