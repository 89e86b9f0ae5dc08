//! Which member a failover or a sync key names.
ghost use Rattle.std.specs.Prelude.{◌≡◌};
ghost use Rattle.cluster_view.specs.Naming.{is_member, candidate_of, is_candidate, is_failover_to, is_standby, is_named, leads};

use crate::LeaderEntry;
use pat_base::MemberId;
use store_keys::{FailoverKey, SyncKey};

/// Whom a failover or a switchover names as candidate, if one is asked for and names one.
pub fn candidate_of(failover: Option<FailoverKey>) -> Option<MemberId>
    ensures { result ≡ candidate_of failover }
{
    match failover {
        None => None,
        Some(failover) => failover.candidate,
    }
}

/// Whether a failover or a switchover names the member as candidate.
pub fn is_candidate(member: MemberId, failover: Option<FailoverKey>) -> bool
    ensures { result ≡ is_candidate member failover }
{
    is_member(member, candidate_of(failover))
}

/// Whether a failover names the member as candidate, and no leader, which a switchover does.
pub fn is_failover_to(member: MemberId, failover: Option<FailoverKey>) -> bool
    ensures { result ≡ is_failover_to member failover }
{
    match failover {
        None => false,
        Some(failover) => failover.leader.is_none() && is_member(member, failover.candidate),
    }
}

/// Whether the leader key names the member.
pub fn leads(member: MemberId, leader: Option<LeaderEntry>) -> bool
    ensures { result ≡ leads member leader }
{
    match leader {
        None => false,
        Some(leader) => leader.holder.number == member.number,
    }
}

/// Whether a sync key names the member as standby.
pub fn is_standby(member: MemberId, sync: SyncKey) -> bool
    ensures { result ≡ is_standby member sync }
{
    sync.standbys.contains(member)
}

/// Whether a sync key names the member, as leader or as standby. Only such a member may take over without losing commits.
pub fn is_named(member: MemberId, sync: SyncKey) -> bool
    ensures { result ≡ is_named member sync }
{
    sync.leader.number == member.number || is_standby(member, sync)
}

/// Whether this is the member.
fn is_member(member: MemberId, other: Option<MemberId>) -> bool
    ensures { result ≡ is_member member other }
{
    match other {
        None => false,
        Some(other) => other.number == member.number,
    }
}
