//! What an agent does once it has read what the key store holds.
ghost use Rattle.std.specs.Prelude.{◌≡◌};
ghost use Rattle.agent_model.specs.Agents.{Follower, IsWithin};
ghost use Rattle.agent_turn.specs.Turns.{HasLeft, Spent, reached};
ghost use Rattle.pat_base.specs.declared.member_id.TheConstants.{MOST_MEMBERS};
ghost use Rattle.agent_model.specs.Snapshots.{finds_own_key, follows, read_answered, led, no_key, others_key, own_key};
ghost use Rattle.agent_turn.specs.Roles.{role_of};

use agent_following::{
    finds_free, follow_row, leader_finds_free, leader_without_key, put_repair, repair_of,
    unleased_finds_free, unleased_without_key,
};
use agent_turn::{
    Role, Turn, failsafe_read_in, inform, is_active, is_hold_active, is_paused, may_start_behind,
    sync_read_in,
};
use agent_upkeep::{awaits_read, renew};
use cluster_view::{LeaderEntry, Snapshot};
use pat_base::MemberId;
use wal_model::History;

/// The answer to a read: what is waited for is used, and any other dropped.
pub(crate) fn read_answered(
    role: Role,
    turn: &mut Turn,
    history: &History,
    sequence: u64,
    snapshot: Snapshot,
) -> Role
    requires turn { HasLeft MOST_MEMBERS 1 turn.old }
    requires server { IsWithin turn.old.machine.now.server }
    ensures outcome { reached (role_of result) turn.new ≡ read_answered turn.old.moment history.now.points sequence snapshot (reached (role_of role) turn.old) }
    ensures left { Spent MOST_MEMBERS 1 turn.old turn.new }
{
    if !awaits_read(turn.knows.waited, sequence) {
        return role;
    }
    if !is_active(&role) {
        turn.knows.waited = None;
        return role;
    }
    let leader = snapshot.leader();
    turn.knows.turn_sync = sync_read_in(&snapshot);
    turn.knows.turn_failover = snapshot.failover();
    turn.knows.turn_failsafe = failsafe_read_in(&snapshot);
    inform(turn.knows, snapshot);
    turn.knows.last_read = Some(turn.moment);
    turn.knows.turn_settings = turn.knows.settings;
    led(role, turn, history, leader)
}

/// What the agent does on the leader key.
fn led(role: Role, turn: &mut Turn, history: &History, leader: Option<LeaderEntry>) -> Role
    requires turn { HasLeft MOST_MEMBERS 1 turn.old }
    requires server { IsWithin turn.old.machine.now.server }
    ensures outcome { reached (role_of result) turn.new ≡ led turn.old.moment history.now.points leader (reached (role_of role) turn.old) }
    ensures left { Spent MOST_MEMBERS 1 turn.old turn.new }
{
    match leader {
        None => no_key(role, turn),
        Some(leader) if leader.holder.number == turn.knows.who.me.number => {
            own_key(&role, turn, history, leader.revision);
            role
        }
        Some(leader) => others_key(role, turn, leader.holder),
    }
}

/// The leader key is its own.
fn own_key(role: &Role, turn: &mut Turn, history: &History, revision: u64)
    requires { HasLeft 1 1 turn.old }
    ensures outcome { reached (role_of role.now) turn.new ≡ own_key turn.old.moment history.now.points revision (role_of role.now) (reached (role_of role.now) turn.old) }
    ensures left { Spent 1 1 turn.old turn.new }
{
    match role {
        Role::Leader(_) | Role::Unleased => renew(role, turn, history, revision),
        Role::Follower | Role::Holder(_) => { finds_own_key(role, turn, history, revision) }
        Role::Ready(_) | Role::Ending(_, _) => {}
    }
}

/// An agent that isn't leading finds the leader key its own: it asks for the renewal, unless its hold is active; in a pause it asks
/// in any case.
fn finds_own_key(role: &Role, turn: &mut Turn, history: &History, revision: u64)
    requires { HasLeft 1 1 turn.old }
    ensures outcome { reached (role_of role.now) turn.new ≡ finds_own_key turn.old.moment history.now.points revision (reached (role_of role.now) turn.old) }
    ensures left { Spent 1 1 turn.old turn.new }
{
    if is_hold_active(turn.moment, turn.machine.hold) && !is_paused(turn.knows) {
        turn.touch();
    } else {
        renew(role, turn, history, revision);
    }
}

/// The leader key is another's.
fn others_key(role: Role, turn: &mut Turn, leader: MemberId) -> Role
    requires turn { HasLeft 3 1 turn.old }
    requires server { IsWithin turn.old.machine.now.server }
    ensures outcome { reached (role_of result) turn.new ≡ others_key turn.old.moment leader (role_of role) (reached (role_of role) turn.old) }
    ensures left { Spent 3 1 turn.old turn.new }
{
    match role {
        Role::Leader(writer) => leader_without_key(writer, turn),
        Role::Unleased => unleased_without_key(turn),
        Role::Follower => follows(turn, leader),
        Role::Holder(lease) => {
            lease.lost();
            follows(turn, leader)
        }
        role => role,
    }
}

/// Another member leads: the server follows that one's, and the agent tells of itself; a log that has to be is repaired behind that.
fn follows(turn: &mut Turn, leader: MemberId) -> Role
    requires turn { HasLeft 3 1 turn.old }
    requires server { IsWithin turn.old.machine.now.server }
    ensures outcome { reached (role_of result) turn.new ≡ follows turn.old.moment leader (reached Follower turn.old) }
    ensures left { Spent 3 1 turn.old turn.new }
{
    let settings = turn.knows.settings;
    let may_start = may_start_behind(turn.knows);
    let repair = repair_of(&settings, leader, &turn.machine.server);
    turn.knows.handed_over = false;
    follow_row(may_start, turn, leader);
    turn.touch();
    put_repair(leader, repair, turn);
    Role::Follower
}

/// The leader key is absent.
fn no_key(role: Role, turn: &mut Turn) -> Role
    requires turn { HasLeft MOST_MEMBERS 1 turn.old }
    requires server { IsWithin turn.old.machine.now.server }
    ensures outcome { reached (role_of result) turn.new ≡ no_key turn.old.moment (role_of role) (reached (role_of role) turn.old) }
    ensures left { Spent MOST_MEMBERS 1 turn.old turn.new }
{
    match role {
        Role::Leader(writer) => leader_finds_free(writer, turn),
        Role::Unleased => unleased_finds_free(turn),
        Role::Follower => finds_free(turn),
        Role::Holder(lease) => {
            lease.lost();
            finds_free(turn)
        }
        role => role,
    }
}
