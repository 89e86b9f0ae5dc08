//! Who wins the race for a free leader key.
ghost use Rattle.std.specs.Prelude.{◌≡◌, ◌&&◌};
ghost use Rattle.std.specs.Result.{result_err};
ghost use Rattle.leader_race.specs.Outcome.{race_keys_in, racer_of, other_writes, ahead, priority, unless, outcome_by, outcome_of};
ghost use Rattle.leader_race.specs.Peers.{counts, is_standby_if, is_compared, is_below, is_level, writes_elsewhere, is_ahead, is_preferred, bars_by, member_where, earlier, first_of};

use crate::bars::{first_bar, judged};
use crate::eligibility::may_fail_over;
use crate::racer::{RaceKeys, Racer, Rule};
use cluster_view::{AgentView, Snapshot, is_candidate, is_standby};
use pat_base::{Ineligibility, Lsn, MemberId, PeerAnswer};
use store_keys::SyncKey;

/// Whether a member that may race wins, by the answers of the others, in whatever order they came, and by this snapshot; or
/// what bars it: [`wins_by`] its keys. It takes no memory.
pub fn wins(
    view: &AgentView<'_>,
    seen: &Snapshot,
    answers: &[PeerAnswer],
) -> Result<(), Ineligibility>
    ensures { result_err result ≡ outcome_of view.now seen.now answers.now }
{
    wins_by(view, &race_keys_in(seen), answers)
}

/// Whether a member that may race wins, by the answers of the others, in whatever order they came; or what bars it, by the
/// first rule that applies, and of the members that bar by that rule the one that the script declares first. An answer of
/// its own, or of a member that may not fail over, doesn't count (Patroni's documentation, "YAML Configuration Settings",
/// under "Tags"). Equal logs are decided by priority alone. It takes no memory.
pub fn wins_by(
    view: &AgentView<'_>,
    keys: &RaceKeys,
    answers: &[PeerAnswer],
) -> Result<(), Ineligibility>
    ensures { result_err result ≡ outcome_by view.now keys.now answers.now }
{
    let racer = racer_of(view, keys);
    let names_me = is_candidate(view.me, keys.failover);
    judged(first_bar(&[
        other_writes(&racer, answers),
        unless(names_me, ahead(&racer, answers)),
        unless(names_me, priority(&racer, answers)),
    ]))
}

/// What a snapshot says of a race.
fn race_keys_in(seen: &Snapshot) -> RaceKeys
    ensures { result ≡ race_keys_in seen.now }
{
    RaceKeys {
        failover: seen.failover(),
        sync: seen.active_sync(),
    }
}

/// What the answers are compared with.
pub fn racer_of(view: &AgentView<'_>, keys: &RaceKeys) -> Racer
    ensures { result ≡ racer_of view.now keys.now }
{
    Racer {
        me: view.me,
        end: view.end,
        priority: view.tags.failover_priority,
        sync: keys.sync,
    }
}

/// What bars where the server of another member accepts writes.
pub fn other_writes(racer: &Racer, answers: &[PeerAnswer]) -> Option<Ineligibility>
    ensures { result ≡ other_writes racer.now answers.now }
{
    match first_of(racer, Rule::OtherWrites, answers) {
        None => None,
        Some(member) => Some(Ineligibility::OtherWrites(member)),
    }
}

/// What bars where the log of a member that is compared ends further on.
pub fn ahead(racer: &Racer, answers: &[PeerAnswer]) -> Option<Ineligibility>
    ensures { result ≡ ahead racer.now answers.now }
{
    match first_of(racer, Rule::Ahead, answers) {
        None => None,
        Some(member) => Some(Ineligibility::Ahead(member)),
    }
}

/// What bars where the log of a member that is compared ends at the same position, and its priority is higher.
pub fn priority(racer: &Racer, answers: &[PeerAnswer]) -> Option<Ineligibility>
    ensures { result ≡ priority racer.now answers.now }
{
    match first_of(racer, Rule::Priority, answers) {
        None => None,
        Some(member) => Some(Ineligibility::Priority(member)),
    }
}

/// A rule that doesn't apply where this is so.
pub fn unless(excepted: bool, bar: Option<Ineligibility>) -> Option<Ineligibility>
    ensures { result ≡ unless excepted bar }
{
    if excepted { None } else { bar }
}

/// Of the members whose answers bar by the rule, the one that the script declares first.
fn first_of(racer: &Racer, rule: Rule, answers: &[PeerAnswer]) -> Option<MemberId>
    ensures { result ≡ first_of (bars_by racer.now rule) answers.now }
{
    let mut first = None;
    for answer in answers {
        first = earlier(first, barring(racer, rule, answer));
    }
    first
}

/// The member that answered, where its answer bars by the rule.
fn barring(racer: &Racer, rule: Rule, answer: &PeerAnswer) -> Option<MemberId>
    ensures { result ≡ member_where (bars_by racer.now rule answer.now) answer.now.member }
{
    if bars_by(racer, rule, answer) {
        Some(answer.member)
    } else {
        None
    }
}

/// Of two members the one that the script declares first.
pub fn earlier(member: Option<MemberId>, other: Option<MemberId>) -> Option<MemberId>
    ensures { result ≡ earlier member other }
{
    match (member, other) {
        (None, other) => other,
        (member, None) => member,
        (Some(member), Some(other)) if other.number < member.number => Some(other),
        (Some(member), Some(_)) => Some(member),
    }
}

fn bars_by(racer: &Racer, rule: Rule, answer: &PeerAnswer) -> bool
    ensures { result ≡ bars_by racer.now rule answer.now }
{
    match rule {
        Rule::OtherWrites => counts(racer.me, answer) && answer.writes,
        Rule::Ahead => is_compared(racer, answer) && is_below(racer.end, answer.end),
        Rule::Priority => is_preferred(racer, answer),
    }
}

fn is_preferred(racer: &Racer, answer: &PeerAnswer) -> bool
    ensures { result ≡ is_preferred racer.now answer.now }
{
    is_compared(racer, answer)
        && is_level(racer.end, answer.end)
        && racer.priority < answer.tags.failover_priority
}

/// Whether an answer counts: another member gave it, which may fail over.
fn counts(me: MemberId, answer: &PeerAnswer) -> bool
    ensures { result ≡ counts me answer.now }
{
    answer.member.number != me.number && may_fail_over(&answer.tags)
}

/// Whether the member that answered is compared with the one that races.
pub fn is_compared(racer: &Racer, answer: &PeerAnswer) -> bool
    ensures { result ≡ is_compared racer.now answer.now }
{
    counts(racer.me, answer) && is_standby_if(racer.sync, answer.member)
}

/// Whether the member is a standby, where the synchronous mode is active.
fn is_standby_if(sync: Option<SyncKey>, member: MemberId) -> bool
    ensures { result ≡ is_standby_if sync member }
{
    match sync {
        None => true,
        Some(sync) => is_standby(member, sync),
    }
}

/// Whether the first end lies below the second.
fn is_below(end: Option<Lsn>, other: Option<Lsn>) -> bool
    ensures { result ≡ is_below end other }
{
    match (end, other) {
        (_, None) => false,
        (None, Some(_)) => true,
        (Some(end), Some(other)) => end.position < other.position,
    }
}

/// Whether both logs are there, and end at one position.
fn is_level(end: Option<Lsn>, other: Option<Lsn>) -> bool
    ensures { result ≡ is_level end other }
{
    match (end, other) {
        (Some(end), Some(other)) => end.position == other.position,
        _ => false,
    }
}
