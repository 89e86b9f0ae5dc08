//! Who may be a synchronous standby, and who of them is wanted.
ghost use Rattle.std.specs.Prelude.{◌≡◌, None, option_copied, slice_index_or};
ghost use Rattle.sync_state.specs.Candidates.{may_sync_by, may_sync_of_entry, may_sync, name_by, name_in, connected_end, candidate_by, candidate_in, candidate_numbered, candidates_in, candidate_cmp, comes_before, candidates_before, is_wanted, wanted_of};

use crate::member_sets::nobody;
use crate::naming::published;
use cluster_view::{LeaderView, Snapshot};
use pat_base::{Host, Lsn, MOST_MEMBERS, MemberId, MemberSet, Name};
use std::cmp::Ordering;
use store_keys::{Key, KeyEntry, Value};

/// A member that may be a synchronous standby, and what decides which of several is.
#[derive(Clone, Copy)]
pub(crate) struct Candidate {
    /// Whether the sync key names it as standby already.
    pub published: bool,
    /// The position that it confirmed.
    pub end: Lsn,
    pub name: Name,
}

/// By member number, the candidates.
pub(crate) fn candidates(
    view: &LeaderView<'_>,
    seen: &Snapshot,
) -> [Option<Candidate>; MOST_MEMBERS]
    ensures { result ≡ candidates_in view.now seen.now }
{
    let mut candidates = [None; MOST_MEMBERS];
    for number in 0..MOST_MEMBERS as u8 {
        candidates[number as usize] = candidate_numbered(view, seen, number);
    }
    candidates
}

/// The member of this number as a candidate, if it is one.
fn candidate_numbered(view: &LeaderView<'_>, seen: &Snapshot, number: u8) -> Option<Candidate>
    ensures { result ≡ candidate_numbered view.now seen.now number }
{
    let member = MemberId::new(number)?;
    candidate_of(view, seen, member)
}

/// The member as a candidate. `None` exactly where it is none: it isn't connected, its member key is absent or says
/// `nosync`, or it is no member of the cluster.
fn candidate_of(view: &LeaderView<'_>, seen: &Snapshot, member: MemberId) -> Option<Candidate>
    ensures { result ≡ candidate_in view.now seen.now member }
{
    if may_sync(seen, member) {
        candidate_by(
            published(seen).contains(member),
            connected_end(view, member),
            name_of(seen, member),
        )
    } else {
        None
    }
}

fn candidate_by(published: bool, end: Option<Lsn>, name: Option<Name>) -> Option<Candidate>
    ensures { result ≡ candidate_by published end name }
{
    match (end, name) {
        (Some(end), Some(name)) => Some(Candidate {
            published,
            end,
            name,
        }),
        _ => None,
    }
}

/// Whether a member's key is there, without `nosync` (Patroni's documentation, "YAML Configuration Settings", under
/// "Tags").
fn may_sync(seen: &Snapshot, member: MemberId) -> bool
    ensures { result ≡ may_sync member seen.now }
{
    may_sync_of_entry(seen.entry(Key::Member(member)))
}

fn may_sync_of_entry(found: Option<&KeyEntry>) -> bool
    ensures { result ≡ may_sync_of_entry (option_copied found.entry) }
{
    match found {
        None => false,
        Some(found) => may_sync_by(&found.value),
    }
}

fn may_sync_by(value: &Value) -> bool
    ensures { result ≡ may_sync_by value.now }
{
    match value {
        Value::Member(info) => !info.tags.nosync,
        _ => false,
    }
}

/// The position that a member confirmed. `None` where it isn't connected.
fn connected_end(view: &LeaderView<'_>, member: MemberId) -> Option<Lsn>
    ensures { result ≡ connected_end member view.now }
{
    position_of(&view.confirmed_positions, member)
}

fn position_of(connected: &[Option<Lsn>; MOST_MEMBERS], member: MemberId) -> Option<Lsn>
    ensures { result ≡ slice_index_or connected.now member.number None }
{
    connected[member.number as usize]
}

/// The name of a member. `None` where the cluster has no such member.
fn name_of(seen: &Snapshot, member: MemberId) -> Option<Name>
    ensures { result ≡ name_in member seen.now }
{
    name_by(seen.members().get(member.number as usize))
}

fn name_by(member: Option<&(Name, Host)>) -> Option<Name>
    ensures { result ≡ name_by (option_copied member.entry) }
{
    match member {
        None => None,
        Some((name, _)) => Some(*name),
    }
}

/// The wanted: of the candidates the first so many.
pub(crate) fn wanted(most: u64, candidates: &[Option<Candidate>; MOST_MEMBERS]) -> MemberSet
    ensures { result ≡ wanted_of most candidates.now }
{
    let mut members = nobody();
    for number in 0..MOST_MEMBERS as u8 {
        if is_wanted(most, candidates, candidates[number as usize]) {
            members = members.with(MemberId { number });
        }
    }
    members
}

/// Whether a member is wanted: it is a candidate, and fewer than so many come before it.
fn is_wanted(most: u64, candidates: &[Option<Candidate>], candidate: Option<Candidate>) -> bool
    ensures { result ≡ is_wanted most candidates.now candidate }
{
    match candidate {
        None => false,
        Some(candidate) => (candidates_before(candidates, candidate) as u64) < most,
    }
}

/// How many of these candidates come before one of them.
fn candidates_before(candidates: &[Option<Candidate>], candidate: Candidate) -> usize
    ensures { result ≡ candidates_before candidates.now candidate }
{
    candidates
        .iter()
        .filter(|other| comes_before(**other, candidate))
        .count()
}

fn comes_before(other: Option<Candidate>, candidate: Candidate) -> bool
    ensures { result ≡ comes_before other candidate }
{
    match other {
        None => false,
        Some(other) => compare(&other, &candidate).is_lt(),
    }
}

/// Which of two candidates comes first: the one that is published, else the one that confirmed more, else the one whose name
/// is earlier in byte order.
fn compare(one: &Candidate, other: &Candidate) -> Ordering
    ensures { result ≡ candidate_cmp one.now other.now }
{
    other
        .published
        .cmp(&one.published)
        .then(other.end.position.cmp(&one.end.position))
        .then(one.name.as_bytes().cmp(other.name.as_bytes()))
}
