//! Who wins the race for a free leader key with quorum commit.
ghost use Rattle.std.specs.Prelude.{◌≡◌};
ghost use Rattle.std.specs.Result.{result_err};
ghost use Rattle.quorum_commit.specs.Race.{compared, is_leader_in, is_told, outcome_among, outcome_with, quorum_keys_in, quorum_outcome_by, quorum_outcome_of, tells_end, too_few};

use cluster_view::{AgentView, Snapshot, is_candidate};
use leader_race::{
    RaceKeys, Racer, ahead, bar_where, first_bar, is_compared, judged, other_writes, priority,
    racer_of, unless,
};
use pat_base::{Ineligibility, MOST_MEMBERS, MemberId, MemberSet, PeerAnswer};
use store_keys::SyncKey;

/// Whether a member that may race wins with quorum commit, by the answers of the others, in whatever order they came,
/// and by this snapshot; or what bars it: [`wins_by`] its keys. It takes no memory.
pub fn quorum_wins(
    view: &AgentView<'_>,
    seen: &Snapshot,
    answers: &[PeerAnswer],
) -> Result<(), Ineligibility>
    ensures { result_err result ≡ quorum_outcome_of view.now seen.now answers.now }
{
    wins_by(view, &quorum_keys_in(seen), answers)
}

/// Whether a member that may race wins with quorum commit, by the answers of the others, in whatever order they came;
/// or what bars it, by the first rule that applies. The leader that the sync key names gives way only to one that
/// accepts writes. Any other is compared with the other standbys in the key that answered, may fail over and have a
/// log: none may be ahead, and they have to be as many as may lack an acknowledged commit, so that one of them or itself
/// has it. It takes no memory.
pub fn wins_by(
    view: &AgentView<'_>,
    keys: &RaceKeys,
    answers: &[PeerAnswer],
) -> Result<(), Ineligibility>
    ensures { result_err result ≡ quorum_outcome_by view.now keys.now answers.now }
{
    let racer = racer_of(view, keys);
    let named = is_candidate(view.me, keys.failover);
    judged(outcome_with(&racer, keys.sync, named, answers))
}

/// What a snapshot says of a race.
fn quorum_keys_in(seen: &Snapshot) -> RaceKeys
    ensures { result ≡ quorum_keys_in seen.now }
{
    RaceKeys {
        failover: seen.failover(),
        sync: seen.sync(),
    }
}

/// What bars a member, by a sync key if there is one.
fn outcome_with(
    racer: &Racer,
    sync: Option<SyncKey>,
    named: bool,
    answers: &[PeerAnswer],
) -> Option<Ineligibility>
    ensures { result ≡ outcome_with racer.now sync named answers.now }
{
    match sync {
        None => other_writes(racer, answers),
        Some(sync) => outcome_among(racer, sync, named, answers),
    }
}

/// What bars a member by this sync key; `named` says whether a failover names it as candidate.
fn outcome_among(
    racer: &Racer,
    sync: SyncKey,
    named: bool,
    answers: &[PeerAnswer],
) -> Option<Ineligibility>
    ensures { result ≡ outcome_among racer.now sync named answers.now }
{
    let leads = is_leader_in(sync, racer);
    first_bar(&[
        other_writes(racer, answers),
        unless(leads, ahead(racer, answers)),
        unless(leads, too_few(sync.quorum, compared(racer, answers))),
        unless(leads || named, priority(racer, answers)),
    ])
}

fn is_leader_in(sync: SyncKey, racer: &Racer) -> bool
    ensures { result ≡ is_leader_in sync racer.now }
{
    sync.leader.number == racer.me.number
}

fn too_few(number: u8, members: MemberSet) -> Option<Ineligibility>
    ensures { result ≡ too_few number members }
{
    bar_where(
        members.len() < u32::from(number),
        Ineligibility::TooFewAnswers,
    )
}

/// Those whose logs a member is compared with.
fn compared(racer: &Racer, answers: &[PeerAnswer]) -> MemberSet
    ensures { result ≡ compared racer.now answers.now }
{
    let mut members = MemberSet::empty();
    for number in 0..MOST_MEMBERS as u8 {
        if is_told(racer, answers, number) {
            members = members.with(MemberId { number });
        }
    }
    members
}

/// Whether the member of this number is compared.
fn is_told(racer: &Racer, answers: &[PeerAnswer], number: u8) -> bool
    ensures { result ≡ is_told racer.now answers.now number }
{
    answers
        .iter()
        .any(|answer| tells_end(racer, number, answer))
}

fn tells_end(racer: &Racer, number: u8, answer: &PeerAnswer) -> bool
    ensures { result ≡ tells_end racer.now number answer.now }
{
    answer.member.number == number && is_compared(racer, answer) && answer.end.is_some()
}
