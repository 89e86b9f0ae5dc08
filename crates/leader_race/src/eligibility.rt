//! Who may race for a free leader key.
ghost use Rattle.std.specs.Prelude.{◌≡◌};
ghost use Rattle.std.specs.Result.{result_err};
ghost use Rattle.leader_race.specs.Eligibility.{not_running, may_fail_over, no_failover, paused, other_candidate, not_sync, is_behind_by, too_far_behind, not_listed, holding, eligibility_of};

use crate::bars::{bar_where, first_bar, judged};
use cluster_view::{AgentView, Snapshot, candidate_of, is_candidate, is_failover_to, is_named};
use pat_base::{Ineligibility, Lsn, MemberId, MemberSet, State, Tags, Ticks};
use store_keys::{FailoverKey, SyncKey};

/// Whether a member may race for a free leader key, by its view and by a snapshot in which that key is free; or what bars
/// it, by the first rule that applies. The rules are those of Patroni's documentation: "Replication modes" on a log that is
/// too far behind and on the sync key, "YAML Configuration Settings" on tags, "Pause/Resume mode for the cluster", "DCS
/// Failsafe Mode". It takes no memory.
pub fn may_race(view: &AgentView<'_>, seen: &Snapshot) -> Result<(), Ineligibility>
    ensures { result_err result ≡ eligibility_of view.now seen.now }
{
    let config = seen.config();
    let failover = seen.failover();
    let names_me = is_candidate(view.me, failover);
    judged(first_bar(&[
        not_running(view.state),
        no_failover(&view.tags),
        paused(config.pause, names_me),
        other_candidate(view.me, candidate_of(failover)),
        not_sync(view.me, failover, seen.active_sync()),
        too_far_behind(
            config.maximum_lag_on_failover,
            seen.status(),
            view.end,
            names_me,
        ),
        not_listed(view.me, config.failsafe_mode, seen.failsafe()),
        holding(view.moment, view.hold),
    ]))
}

fn not_running(state: State) -> Option<Ineligibility>
    ensures { result ≡ not_running state }
{
    match state {
        State::Replica => None,
        _ => Some(Ineligibility::NotRunning),
    }
}

/// Whether a member's tags let it fail over. It takes no memory.
pub fn may_fail_over(tags: &Tags) -> bool
    ensures { result ≡ may_fail_over tags.now }
{
    tags.may_fail_over()
}

fn no_failover(tags: &Tags) -> Option<Ineligibility>
    ensures { result ≡ no_failover tags.now }
{
    bar_where(!may_fail_over(tags), Ineligibility::NoFailover)
}

fn paused(pause: bool, names_me: bool) -> Option<Ineligibility>
    ensures { result ≡ paused pause names_me }
{
    bar_where(pause && !names_me, Ineligibility::Paused)
}

fn other_candidate(me: MemberId, candidate: Option<MemberId>) -> Option<Ineligibility>
    ensures { result ≡ other_candidate me candidate }
{
    let Some(candidate) = candidate else {
        return None;
    };
    bar_where(
        candidate.number != me.number,
        Ineligibility::Candidate(candidate),
    )
}

fn not_sync(
    me: MemberId,
    failover: Option<FailoverKey>,
    sync: Option<SyncKey>,
) -> Option<Ineligibility>
    ensures { result ≡ not_sync me failover sync }
{
    let Some(sync) = sync else {
        return None;
    };
    bar_where(
        !is_named(me, sync) && !is_failover_to(me, failover),
        Ineligibility::NotSync,
    )
}

/// Whether a log that ends here is behind by more than so many bytes.
fn is_behind_by(bytes: u64, status: Option<Lsn>, end: Option<Lsn>) -> bool
    ensures { result ≡ is_behind_by bytes status end }
{
    match (status, end) {
        (None, _) => false,
        (Some(_), None) => true,
        (Some(status), Some(end)) => bytes < status.position.saturating_sub(end.position),
    }
}

fn too_far_behind(
    most: u64,
    status: Option<Lsn>,
    end: Option<Lsn>,
    names_me: bool,
) -> Option<Ineligibility>
    ensures { result ≡ too_far_behind most status end names_me }
{
    bar_where(
        is_behind_by(most, status, end) && !names_me,
        Ineligibility::TooFarBehind,
    )
}

fn not_listed(
    me: MemberId,
    failsafe_mode: bool,
    failsafe: Option<MemberSet>,
) -> Option<Ineligibility>
    ensures { result ≡ not_listed me failsafe_mode failsafe }
{
    let Some(members) = failsafe else {
        return None;
    };
    bar_where(
        failsafe_mode && !members.contains(me),
        Ineligibility::NotListed,
    )
}

fn holding(now: Ticks, hold: Option<Ticks>) -> Option<Ineligibility>
    ensures { result ≡ holding now hold }
{
    let Some(until) = hold else {
        return None;
    };
    bar_where(now < until, Ineligibility::Hold)
}
