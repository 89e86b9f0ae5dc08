//! The standbys of a leader in synchronous mode: who they are, and who is to be.
ghost use Rattle.std.specs.Prelude.{◌≡◌, map};
ghost use Rattle.sync_state.specs.Sets.{set_of};
ghost use Rattle.sync_state.specs.Standbys.{required_members, noted_position, has_confirmed, standbys_in};

use crate::candidates::{candidates, wanted};
use crate::member_sets::nobody;
use crate::naming::published;
use crate::steps::Standbys;
use cluster_view::{LeaderView, Snapshot};
use pat_base::{Lsn, MOST_MEMBERS, MemberId, MemberSet, Required};

/// The standbys of the leader, by its view and a snapshot.
pub(crate) fn standbys_of(view: &LeaderView<'_>, seen: &Snapshot) -> Standbys
    ensures { result ≡ standbys_in view.now seen.now }
{
    Standbys {
        published: published(seen),
        required: required_members(view.required),
        wanted: wanted(
            seen.config().synchronous_node_count,
            &candidates(view, seen),
        ),
        confirmed: confirmed(view.noted, &view.confirmed_positions),
    }
}

/// Each member whose confirmation a commit waits for.
fn required_members(required: Required) -> MemberSet
    ensures { result ≡ required_members required }
{
    match required {
        Required::Nobody | Required::AnyOne | Required::AtLeast { .. } => nobody(),
        Required::All(members) => members,
    }
}

/// Who has confirmed the noted position.
fn confirmed(noted: Option<Lsn>, connected: &[Option<Lsn>; MOST_MEMBERS]) -> MemberSet
    ensures { result ≡ set_of (map (has_confirmed noted) connected.now) }
{
    let mut members = nobody();
    for number in 0..MOST_MEMBERS as u8 {
        if has_confirmed(noted, connected[number as usize]) {
            members = members.with(MemberId { number });
        }
    }
    members
}

/// Whether a member has confirmed the noted position: it is connected, and what it confirmed is at or past that.
fn has_confirmed(noted: Option<Lsn>, end: Option<Lsn>) -> bool
    ensures { result ≡ has_confirmed noted end }
{
    match end {
        None => false,
        Some(end) => noted_position(noted) <= end.position,
    }
}

/// The noted position: 0 where none was noted.
fn noted_position(noted: Option<Lsn>) -> u64
    ensures { result ≡ noted_position noted }
{
    match noted {
        None => 0,
        Some(noted) => noted.position,
    }
}
