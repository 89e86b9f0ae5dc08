//! Who leads and who may take over, by a snapshot.
ghost use Rattle.std.specs.Prelude.{◌≡◌};
ghost use Rattle.leader_race.specs.Eligibility.{may_fail_over};
ghost use Rattle.operator_keys.specs.Candidates.{names_leader, info_of, may_take_over, may_take_over_by, anyone_may_take_over};

use crate::asked::Named;
use cluster_view::{LeaderEntry, Snapshot, info_by, leads};
use leader_race::may_fail_over;
use pat_base::{MemberId, Tags};
use store_keys::{Key, MemberInfo, Value};

/// Whether the one who is named leads.
pub(crate) fn names_leader(who: Named, leader: Option<LeaderEntry>) -> bool
    ensures { result ≡ names_leader who leader }
{
    match who {
        Named::Member(member) => leads(member, leader),
        Named::Nobody | Named::Unknown => false,
    }
}

/// What the one who is named tells of itself, where it has a member key.
pub(crate) fn info_of(who: Named, seen: &Snapshot) -> Option<MemberInfo>
    ensures { result ≡ info_of who seen.now }
{
    match who {
        Named::Member(member) => seen.info(member),
        Named::Nobody | Named::Unknown => None,
    }
}

/// Whether any member besides the leader may take over.
pub(crate) fn anyone_may_take_over(seen: &Snapshot) -> bool
    ensures { result ≡ anyone_may_take_over seen.now }
{
    let leader = seen.leader();
    seen.entries().iter().any(|(key, found)| may_take_over_by(leader, *key, &found.get().value))
}

/// Whether this is the member key of one who may take over.
fn may_take_over_by(leader: Option<LeaderEntry>, key: Key, value: &Value) -> bool
    ensures { result ≡ may_take_over_by leader key value.now }
{
    match key {
        Key::Member(member) => may_take_over(member, leader, info_by(value)),
        _ => false,
    }
}

/// Whether a member that tells this of itself may take over from the leader.
fn may_take_over(member: MemberId, leader: Option<LeaderEntry>, info: Option<MemberInfo>) -> bool
    ensures { result ≡ may_take_over member leader info }
{
    match info {
        None => false,
        Some(info) => !leads(member, leader) && may_fail_over(&info.tags),
    }
}
