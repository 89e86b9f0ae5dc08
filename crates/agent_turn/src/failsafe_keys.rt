//! What an agent reads of the failsafe key, and what it writes there (Patroni documentation, "DCS Failsafe Mode").
ghost use Rattle.std.specs.Prelude.{◌≡◌};
ghost use Rattle.cluster_view.specs.Snapshots.{failsafe_by};
ghost use Rattle.agent_model.specs.FailsafeKeys.{failsafe_compared, failsafe_expected, failsafe_read_by, failsafe_read_in, is_fed_by_failsafe, set_in, set_carried};
ghost use Rattle.agent_turn.specs.Roles.{role_of};
ghost use Rattle.agent_turn.specs.Turns.{reached};

use crate::role::Role;
use crate::turn::Turn;
use agent_model::{FailsafeRead, Knowledge, Machine};
use cluster_view::Snapshot;
use failsafe::set_to_write;
use pat_base::MemberSet;
use store_keys::{Expected, Key, Value};

/// The failsafe key that a snapshot has, with its revision.
pub fn failsafe_read_in(snapshot: &Snapshot) -> Option<FailsafeRead>
    ensures { result ≡ failsafe_read_in snapshot.now }
{
    let found = snapshot.entry(Key::Failsafe)?;
    failsafe_read_by(found.revision, failsafe_by(&found.value))
}

/// A failsafe key that was written under this revision.
fn failsafe_read_by(revision: u64, members: Option<MemberSet>) -> Option<FailsafeRead>
    ensures { result ≡ failsafe_read_by revision members }
{
    match members {
        None => None,
        Some(members) => Some(FailsafeRead { members, revision }),
    }
}

/// The members that a value of the failsafe key lists.
fn failsafe_by(value: &Value) -> Option<MemberSet>
    ensures { result ≡ failsafe_by value.now }
{
    match value {
        Value::Failsafe(members) => Some(*members),
        _ => None,
    }
}

/// What a request expects of a failsafe key that was read so.
fn failsafe_expected(read: Option<FailsafeRead>) -> Expected
    ensures { result ≡ failsafe_expected read }
{
    match read {
        None => Expected::Absent,
        Some(read) => Expected::Revision(read.revision),
    }
}

/// What a create expects of the failsafe key: with failsafe mode that it is as the turn read it.
pub fn failsafe_compared(knows: &Knowledge) -> Option<Expected>
    ensures { result ≡ failsafe_compared knows.now }
{
    if knows.turn_settings.failsafe_mode {
        Some(failsafe_expected(knows.turn_failsafe))
    } else {
        None
    }
}

/// Whom an agent writes into the failsafe key with its renewal: it leads, and its deadline is by a grant.
pub fn set_carried(role: &Role, turn: &Turn) -> Option<MemberSet>
    ensures { result ≡ set_carried (reached (role_of role.now) turn.now) }
{
    if matches!(role, Role::Leader(_)) && !is_fed_by_failsafe(turn.machine) {
        set_in(turn.knows.settings.failsafe_mode, &turn.knows.seen)
    } else {
        None
    }
}

/// Whether acknowledgements set the deadline of the watchdog last, if it has one.
fn is_fed_by_failsafe(machine: &Machine) -> bool
    ensures { result ≡ is_fed_by_failsafe machine.now }
{
    machine.watchdog.deadline().is_some() && machine.by_failsafe
}

/// Whom an agent is to write into the failsafe key that read this.
fn set_in(mode: bool, seen: &Option<Snapshot>) -> Option<MemberSet>
    ensures { result ≡ set_in mode seen.now }
{
    match seen {
        None => None,
        Some(snapshot) => set_to_write(mode, snapshot),
    }
}
