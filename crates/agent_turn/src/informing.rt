//! What an agent learns of a snapshot.
ghost use Rattle.std.specs.Prelude.{◌≡◌};
ghost use Rattle.agent_model.specs.Agents.{IsSound};
ghost use Rattle.agent_model.specs.Snapshots.{informed, known_with};

use agent_model::Knowledge;
use cluster_view::Snapshot;
use pat_base::MemberSet;

/// A snapshot is the newest: its settings hold from now on, its failsafe key's members are known, and nothing is waited for.
pub fn inform(knows: &mut Knowledge, snapshot: Snapshot)
    requires { IsSound knows.old }
    ensures knows { knows.new ≡ informed snapshot knows.old }
    ensures sound { IsSound knows.new }
    ensures numbers { knows.new.sequence ≡ knows.old.sequence }
{
    let failsafe = snapshot.failsafe();
    knows.waited = None;
    knows.settings = snapshot.settings_or(knows.settings);
    knows.known = known_with(knows.known, failsafe);
    knows.informed = knows.informed || failsafe.is_some();
    knows.seen = Some(snapshot);
}

/// The members that are known, with those that a failsafe key lists.
pub fn known_with(known: MemberSet, failsafe: Option<MemberSet>) -> MemberSet
    ensures { result ≡ known_with known failsafe }
{
    match failsafe {
        None => known,
        Some(members) => MemberSet {
            bits: known.bits | members.bits,
        },
    }
}
