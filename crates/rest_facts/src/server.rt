//! What the key store makes of a member.
ghost use Rattle.std.specs.Prelude.{◌≡◌, option_copied};
ghost use Rattle.rest_facts.specs.Members.{is_standby_on};

use cluster_view::{Snapshot, is_standby};
use pat_base::MemberId;

/// Whether the sync key names the member as a standby: not before the first snapshot, and not where the key was absent.
pub(crate) fn is_standby_on(me: MemberId, seen: Option<&Snapshot>) -> bool
    ensures { result ≡ is_standby_on me (option_copied seen.entry) }
{
    match seen {
        None => false,
        Some(seen) => match seen.sync() {
            None => false,
            Some(sync) => is_standby(me, sync),
        },
    }
}
