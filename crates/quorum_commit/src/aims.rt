//! What a leader with quorum commit has, and what it aims at.
ghost use Rattle.std.specs.Prelude.{◌≡◌, min};
ghost use Rattle.quorum_commit.specs.Plans.{aim_of, confirmed_by, need_of, quorum_of, required_of};
ghost use Rattle.quorum_commit.specs.Quorums.{size};

use crate::candidates::{confirmed, wanted};
use crate::quorums::{Need, Quorum};
use crate::steps::Aim;
use cluster_view::{LeaderView, Snapshot};
use pat_base::{MemberSet, Required};
use store_keys::SyncKey;

/// How many members a set has.
pub(crate) fn size(set: MemberSet) -> u8
    ensures { result ≡ size set }
{
    set.len() as u8
}

/// For how many of the wanted commits are to wait: for so many, or for all where these are fewer.
pub(crate) fn needed(count: u64, wanted: MemberSet) -> u8
    ensures { result ≡ min count (size wanted) }
{
    let all = size(wanted);
    if count < u64::from(all) {
        count as u8
    } else {
        all
    }
}

/// What a required list needs: nobody of the empty set where it waits for nobody, or for any one. It takes no memory.
pub fn need_of(required: Required) -> Need
    ensures { result ≡ need_of required }
{
    match required {
        Required::Nobody | Required::AnyOne => Need {
            number: 0,
            of: MemberSet { bits: 0 },
        },
        Required::All(members) => Need {
            number: size(members),
            of: members,
        },
        Required::AtLeast { number, of } => Need { number, of },
    }
}

/// The required list that needs this; `unnamed` is that of a leader without a standby, where nobody may be needed. It
/// takes no memory.
pub fn required_of(unnamed: Required, need: Need) -> Required
    ensures { result ≡ required_of unnamed need }
{
    if need.of.bits == 0 {
        unnamed
    } else {
        Required::AtLeast {
            number: need.number,
            of: need.of,
        }
    }
}

/// What a sync key publishes.
fn quorum_of(sync: SyncKey) -> Quorum
    ensures { result ≡ quorum_of sync }
{
    Quorum {
        standbys: sync.standbys,
        number: sync.quorum,
    }
}

/// Whether as many as commits wait for have confirmed the noted position, of the members that they wait for.
fn confirmed_by(view: &LeaderView<'_>) -> bool
    ensures { result ≡ confirmed_by view.now }
{
    let need = need_of(view.required);
    let sure = confirmed(view.noted, &view.confirmed_positions);
    need.number <= size(need.of.intersection(sure))
}

/// What the leader has by this sync key, and what it aims at.
pub(crate) fn aim_of(view: &LeaderView<'_>, seen: &Snapshot, sync: SyncKey) -> Aim
    ensures { result ≡ aim_of view.now seen.now sync }
{
    Aim {
        key: quorum_of(sync),
        need: need_of(view.required),
        wanted: wanted(view, seen),
        count: seen.config().synchronous_node_count,
        confirmed: confirmed_by(view),
    }
}
