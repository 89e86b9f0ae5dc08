//! Which step a leader takes next with quorum commit.
ghost use Rattle.std.specs.Prelude.{◌≡◌};
ghost use Rattle.quorum_commit.specs.Plans.{first_plan, plan_where, published_need, publishing, quorum_change_of, quorum_plan_of, quorum_plan_off, quorum_plan_on, requiring, same_key, same_need, target_key, target_need, widest_key};

use crate::aims::{aim_of, needed, size};
use crate::quorums::{Need, Quorum, may_publish, overlap};
use crate::steps::{Aim, QuorumPlan};
use cluster_view::{LeaderView, Snapshot};
use pat_base::MemberSet;
use store_keys::SyncKey;

/// What the leader is to do next about its standbys with quorum commit, by its view and a snapshot: the first row that
/// applies.
///
/// - Where the synchronous mode is off, a sync key that is there is removed.
/// - A key that is absent or names another leader is made to name this one.
/// - Where all candidates are published, and commits wait for as many of them as are to, nothing is changed. Else these
///   are published, where that loses no commit, or waited for, where they overlap the key.
/// - Else the published standbys and the candidates are published together, any of which may lack a commit; and else
///   commits come to wait for the published standbys again.
///
/// It takes no memory.
pub fn quorum_plan(view: &LeaderView<'_>, seen: &Snapshot) -> QuorumPlan
    ensures { result ≡ quorum_plan_of view.now seen.now }
{
    if seen.config().synchronous_mode {
        plan_on(view, seen, seen.sync())
    } else {
        plan_off(seen.sync())
    }
}

/// The plan where the synchronous mode is off.
fn plan_off(sync: Option<SyncKey>) -> QuorumPlan
    ensures { result ≡ quorum_plan_off sync }
{
    match sync {
        None => QuorumPlan::Keep,
        Some(_) => QuorumPlan::SwitchOff,
    }
}

/// The plan where the synchronous mode is on, by the sync key.
fn plan_on(view: &LeaderView<'_>, seen: &Snapshot, sync: Option<SyncKey>) -> QuorumPlan
    ensures { result ≡ quorum_plan_on view.now seen.now sync }
{
    match sync {
        None => QuorumPlan::Mark,
        Some(sync) => {
            if sync.leader.number == view.view.me.number {
                change_of(&aim_of(view, seen, sync))
            } else {
                QuorumPlan::Mark
            }
        }
    }
}

/// The next change, where the sync key names this leader.
fn change_of(aim: &Aim) -> QuorumPlan
    ensures { result ≡ quorum_change_of aim.now }
{
    let key = target_key(aim.count, aim.wanted);
    let need = target_need(aim.count, aim.wanted);
    let back = published_need(aim);
    first_plan(&[
        plan_where(
            same_key(aim.key, key) && same_need(aim.need, need),
            QuorumPlan::Keep,
        ),
        publishing(aim, key),
        requiring(aim, need),
        plan_where(same_need(aim.need, need), QuorumPlan::Keep),
        publishing(aim, widest_key(aim)),
        plan_where(!same_need(aim.need, back), QuorumPlan::Require(back)),
    ])
}

/// The plan of the first row that applies.
fn first_plan(rows: &[Option<QuorumPlan>]) -> QuorumPlan
    ensures { result ≡ first_plan rows.now }
{
    for row in rows {
        if let Some(plan) = row {
            return *plan;
        }
    }
    QuorumPlan::Keep
}

fn plan_where(applies: bool, plan: QuorumPlan) -> Option<QuorumPlan>
    ensures { result ≡ plan_where applies plan }
{
    if applies { Some(plan) } else { None }
}

fn publishing(aim: &Aim, next: Quorum) -> Option<QuorumPlan>
    ensures { result ≡ publishing aim.now next }
{
    plan_where(
        !same_key(aim.key, next) && may_publish(aim.key, next, aim.need, aim.confirmed),
        QuorumPlan::Publish(next),
    )
}

fn requiring(aim: &Aim, next: Need) -> Option<QuorumPlan>
    ensures { result ≡ requiring aim.now next }
{
    plan_where(
        !same_need(aim.need, next) && overlap(aim.key, next),
        QuorumPlan::Require(next),
    )
}

fn same_key(one: Quorum, other: Quorum) -> bool
    ensures { result ≡ same_key one other }
{
    one.standbys.bits == other.standbys.bits && one.number == other.number
}

fn same_need(one: Need, other: Need) -> bool
    ensures { result ≡ same_need one other }
{
    one.of.bits == other.of.bits && one.number == other.number
}

/// What is to be published: all wanted, those but the needed among which may lack a commit.
fn target_key(count: u64, wanted: MemberSet) -> Quorum
    ensures { result ≡ target_key count wanted }
{
    Quorum {
        standbys: wanted,
        number: size(wanted).saturating_sub(needed(count, wanted)),
    }
}

/// Whom commits are to wait for.
fn target_need(count: u64, wanted: MemberSet) -> Need
    ensures { result ≡ target_need count wanted }
{
    Need {
        number: needed(count, wanted),
        of: wanted,
    }
}

/// The published standbys and the wanted, any of which may lack a commit.
fn widest_key(aim: &Aim) -> Quorum
    ensures { result ≡ widest_key aim.now }
{
    let standbys = aim.key.standbys.union(aim.wanted);
    Quorum {
        standbys,
        number: size(standbys),
    }
}

/// Of the published standbys so many that no more than the key's number may lack a commit.
fn published_need(aim: &Aim) -> Need
    ensures { result ≡ published_need aim.now }
{
    Need {
        number: size(aim.key.standbys).saturating_sub(aim.key.number),
        of: aim.key.standbys,
    }
}
