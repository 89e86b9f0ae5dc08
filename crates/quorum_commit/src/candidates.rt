//! Who may be a standby of a leader with quorum commit, and who of them has confirmed.
ghost use Rattle.std.specs.Prelude.{◌≡◌, Bool, None, is_some, map, option_copied, slice_index_or};
ghost use Rattle.sync_state.specs.Candidates.{candidate_by, candidate_in, candidate_where, connected_end, may_sync, may_sync_by, may_sync_of_entry, name_by, name_in};
ghost use Rattle.sync_state.specs.Sets.{set_of};
ghost use Rattle.sync_state.specs.Standbys.{has_confirmed, noted_position};
ghost use Rattle.quorum_commit.specs.Plans.{can_be_standby, wanted};

use cluster_view::{LeaderView, Snapshot};
use pat_base::{Host, Lsn, MOST_MEMBERS, MemberId, MemberSet, Name};
use store_keys::{Key, KeyEntry, Value};

/// The wanted: all candidates.
pub(crate) fn wanted(view: &LeaderView<'_>, seen: &Snapshot) -> MemberSet
    ensures { result ≡ wanted view.now seen.now }
{
    let mut members = MemberSet::empty();
    for number in 0..MOST_MEMBERS as u8 {
        if can_be_standby(view, seen, number) {
            members = members.with(MemberId { number });
        }
    }
    members
}

/// Whether the member of this number is a candidate.
fn can_be_standby(view: &LeaderView<'_>, seen: &Snapshot, number: u8) -> bool
    ensures { result ≡ can_be_standby view.now seen.now number }
{
    match MemberId::new(number) {
        None => false,
        Some(member) => is_candidate(view, seen, member),
    }
}

/// Whether the member is a candidate: it is connected, its member key is there without `nosync`, and the cluster has
/// it.
fn is_candidate(view: &LeaderView<'_>, seen: &Snapshot, member: MemberId) -> bool
    ensures { result ≡ is_some (candidate_in view.now seen.now member) }
{
    is_candidate_by(
        may_sync(seen, member),
        connected_end(&view.confirmed_positions, member),
        name_of(seen, member),
    )
}

fn is_candidate_by(may_sync: bool, end: Option<Lsn>, name: Option<Name>) -> bool
    ensures { (published : Bool) → result ≡ is_some (candidate_where may_sync (candidate_by published end name)) }
{
    if may_sync {
        match (end, name) {
            (Some(_), Some(_)) => true,
            _ => false,
        }
    } else {
        false
    }
}

fn may_sync(seen: &Snapshot, member: MemberId) -> bool
    ensures { result ≡ may_sync member seen.now }
{
    may_sync_of_entry(seen.entry(Key::Member(member)))
}

fn may_sync_of_entry(found: Option<&KeyEntry>) -> bool
    ensures { result ≡ may_sync_of_entry (option_copied found.entry) }
{
    match found {
        None => false,
        Some(found) => may_sync_by(&found.value),
    }
}

fn may_sync_by(value: &Value) -> bool
    ensures { result ≡ may_sync_by value.now }
{
    match value {
        Value::Member(info) => !info.tags.nosync,
        _ => false,
    }
}

fn connected_end(connected: &[Option<Lsn>; MOST_MEMBERS], member: MemberId) -> Option<Lsn>
    ensures { result ≡ slice_index_or connected.now member.number None }
{
    connected[member.number as usize]
}

fn name_of(seen: &Snapshot, member: MemberId) -> Option<Name>
    ensures { result ≡ name_in member seen.now }
{
    name_by(seen.members().get(member.number as usize))
}

fn name_by(member: Option<&(Name, Host)>) -> Option<Name>
    ensures { result ≡ name_by (option_copied member.entry) }
{
    match member {
        None => None,
        Some((name, _)) => Some(*name),
    }
}

/// Who has confirmed the noted position.
pub(crate) fn confirmed(noted: Option<Lsn>, connected: &[Option<Lsn>; MOST_MEMBERS]) -> MemberSet
    ensures { result ≡ set_of (map (has_confirmed noted) connected.now) }
{
    let mut members = MemberSet::empty();
    for number in 0..MOST_MEMBERS as u8 {
        if has_confirmed(noted, connected[number as usize]) {
            members = members.with(MemberId { number });
        }
    }
    members
}

/// Whether a member has confirmed the noted position: it is connected, and what it confirmed is at or past that.
fn has_confirmed(noted: Option<Lsn>, end: Option<Lsn>) -> bool
    ensures { result ≡ has_confirmed noted end }
{
    match end {
        None => false,
        Some(end) => noted_position(noted) <= end.position,
    }
}

fn noted_position(noted: Option<Lsn>) -> u64
    ensures { result ≡ noted_position noted }
{
    match noted {
        None => 0,
        Some(noted) => noted.position,
    }
}
