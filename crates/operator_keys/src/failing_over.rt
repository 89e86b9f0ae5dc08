//! By which rules switchovers and failovers are refused.
ghost use Rattle.std.specs.Prelude.{◌≡◌};
ghost use Rattle.operator_keys.specs.Rules.{leader_not_named, candidate_not_named, target_is_source, paused_without_candidate, scheduled, other_leader, candidate_leads, another_under_way, no_such_candidate, is_standby_or_nobody, candidate_not_standby, candidate_may_not_fail_over, no_good_candidates, switchover_refusal, failover_refusal};

use crate::Refused;
use crate::asked::{Asked, Named};
use crate::candidates::{anyone_may_take_over, info_of, names_leader};
use crate::refusal::{first_refusal, refused_where};
use cluster_view::{LeaderEntry, Snapshot, is_standby};
use leader_race::may_fail_over;
use operator_answers::{BAD_REQUEST, PRECONDITION_FAILED, SERVICE_UNAVAILABLE, Text};
use store_keys::{FailoverKey, MemberInfo, SyncKey};

/// What refuses a switchover that asks this, by the first rule that applies.
pub(crate) fn switchover_refusal(asked: Asked, seen: &Snapshot) -> Option<Refused>
    ensures { result ≡ switchover_refusal asked seen.now }
{
    let info = info_of(asked.candidate, seen);
    first_refusal(&[
        leader_not_named(asked.leader),
        target_is_source(asked.is_same),
        paused_without_candidate(seen.config().pause, asked.candidate),
        scheduled(asked.is_scheduled),
        other_leader(asked.leader, seen.leader()),
        another_under_way(seen.failover()),
        no_such_candidate(asked.candidate, info),
        candidate_not_standby(asked.candidate, seen.active_sync()),
        candidate_may_not_fail_over(info),
        no_good_candidates(asked.candidate, anyone_may_take_over(seen)),
    ])
}

/// What refuses a failover that asks this, by the first rule that applies.
pub(crate) fn failover_refusal(asked: Asked, seen: &Snapshot) -> Option<Refused>
    ensures { result ≡ failover_refusal asked seen.now }
{
    let info = info_of(asked.candidate, seen);
    first_refusal(&[
        candidate_not_named(asked.candidate),
        scheduled(asked.is_scheduled),
        candidate_leads(asked.candidate, seen.leader()),
        another_under_way(seen.failover()),
        no_such_candidate(asked.candidate, info),
        candidate_may_not_fail_over(info),
    ])
}

fn leader_not_named(leader: Named) -> Option<Refused>
    ensures { result ≡ leader_not_named leader }
{
    refused_where(leader.is_nobody(), BAD_REQUEST, Text::LeaderNotNamed)
}

fn candidate_not_named(candidate: Named) -> Option<Refused>
    ensures { result ≡ candidate_not_named candidate }
{
    refused_where(candidate.is_nobody(), BAD_REQUEST, Text::CandidateNotNamed)
}

fn target_is_source(is_same: bool) -> Option<Refused>
    ensures { result ≡ target_is_source is_same }
{
    refused_where(is_same, BAD_REQUEST, Text::TargetIsSource)
}

fn paused_without_candidate(pause: bool, candidate: Named) -> Option<Refused>
    ensures { result ≡ paused_without_candidate pause candidate }
{
    refused_where(
        pause && candidate.is_nobody(),
        BAD_REQUEST,
        Text::PausedWithoutCandidate,
    )
}

fn scheduled(is_scheduled: bool) -> Option<Refused>
    ensures { result ≡ scheduled is_scheduled }
{
    refused_where(is_scheduled, BAD_REQUEST, Text::ScheduledNotBuilt)
}

fn other_leader(who: Named, leader: Option<LeaderEntry>) -> Option<Refused>
    ensures { result ≡ other_leader who leader }
{
    refused_where(
        !names_leader(who, leader),
        PRECONDITION_FAILED,
        Text::OtherLeader,
    )
}

fn candidate_leads(candidate: Named, leader: Option<LeaderEntry>) -> Option<Refused>
    ensures { result ≡ candidate_leads candidate leader }
{
    refused_where(
        names_leader(candidate, leader),
        PRECONDITION_FAILED,
        Text::CandidateLeads,
    )
}

fn another_under_way(failover: Option<FailoverKey>) -> Option<Refused>
    ensures { result ≡ another_under_way failover }
{
    refused_where(
        failover.is_some(),
        SERVICE_UNAVAILABLE,
        Text::AnotherUnderWay,
    )
}

fn no_such_candidate(candidate: Named, info: Option<MemberInfo>) -> Option<Refused>
    ensures { result ≡ no_such_candidate candidate info }
{
    refused_where(
        !candidate.is_nobody() && info.is_none(),
        PRECONDITION_FAILED,
        Text::NoSuchCandidate,
    )
}

fn candidate_not_standby(candidate: Named, sync: Option<SyncKey>) -> Option<Refused>
    ensures { result ≡ candidate_not_standby candidate sync }
{
    let sync = sync?;
    refused_where(
        !is_standby_or_nobody(candidate, sync),
        PRECONDITION_FAILED,
        Text::CandidateNotStandby,
    )
}

/// Whether the sync key names the candidate as standby, if there is one.
fn is_standby_or_nobody(candidate: Named, sync: SyncKey) -> bool
    ensures { result ≡ is_standby_or_nobody candidate sync }
{
    match candidate {
        Named::Nobody => true,
        Named::Unknown => false,
        Named::Member(member) => is_standby(member, sync),
    }
}

fn candidate_may_not_fail_over(info: Option<MemberInfo>) -> Option<Refused>
    ensures { result ≡ candidate_may_not_fail_over info }
{
    let info = info?;
    refused_where(
        !may_fail_over(&info.tags),
        PRECONDITION_FAILED,
        Text::CandidateMayNotFailOver,
    )
}

fn no_good_candidates(candidate: Named, anyone: bool) -> Option<Refused>
    ensures { result ≡ no_good_candidates candidate anyone }
{
    refused_where(
        candidate.is_nobody() && !anyone,
        PRECONDITION_FAILED,
        Text::NoGoodCandidates,
    )
}
