//! Silent events: they print nothing, and the summary doesn't count them.
ghost use Rattle.std.specs.Prelude.{◌≡◌};
ghost use Rattle.event_list.specs.Silence.{is_silent, is_silent_grant};

use event_book::{AgentEvent, EventKind, LogEvent, ReplicationEvent, StoreEvent};
use store_keys::{LeaseTxn, Txn};

/// Whether what happened is of a kind that is frequent, prints nothing, while messages are traced or not, and isn't counted by the summary.
/// Rarer ones of which that is so too, as an expired key, are none of these.
#[inline(always)]
pub fn is_silent(traced: bool, kind: &EventKind) -> bool
    ensures { result ≡ is_silent traced kind.now }
{
    match kind {
        EventKind::Message(_) => !traced,
        EventKind::Store(StoreEvent::Granted { txn, .. }) => is_silent_grant(txn.get()),
        EventKind::Log(LogEvent::Received { .. })
        | EventKind::Replication(ReplicationEvent::Confirmed { .. })
        | EventKind::Agent(AgentEvent::Woken { .. }) => true,
        _ => false,
    }
}

/// Whether so is the grant of this transaction: a member tells of itself, or renews the leader key too.
fn is_silent_grant(txn: &Txn) -> bool
    ensures { result ≡ is_silent_grant txn.now }
{
    matches!(txn, Txn::Touch { .. } | Txn::Lease(LeaseTxn::Renew { .. }))
}
