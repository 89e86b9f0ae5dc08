//! What comes before every input: the agent's role is brought to what it finds of its server.
ghost use Rattle.std.specs.Prelude.{false, ◌≡◌};
ghost use Rattle.agent_turn.specs.Turns.{ComesTo, HasLeft, Spent, reached};
ghost use Rattle.agent_model.specs.Agents.{Ending, Follower, Leader, Unleased};
ghost use Rattle.agent_model.specs.Reconciling.{reconciled, has_ended, leader_finds_ended, noted_or};
ghost use Rattle.agent_model.specs.Acting.{disarming};
ghost use Rattle.pat_base.specs.ServerState.{live};
ghost use Rattle.agent_turn.specs.Roles.{role_of};
ghost use Rattle.leader_key.specs.Lease.{writer_revision};

use agent_model::Why;
use agent_turn::{Role, Turn};
use leader_key::{Armed, Lease, Writer};
use pat_base::Ticks;

/// What comes before an input: the role after it.
pub fn reconcile(role: Role, turn: &mut Turn) -> Role
    requires { HasLeft 2 1 turn.old }
    ensures outcome { reached (role_of result) turn.new ≡ reconciled turn.old.moment (reached (role_of role) turn.old) }
    ensures server { turn.new.machine.now.server ≡ turn.old.machine.now.server }
    ensures left { Spent 2 1 turn.old turn.new }
{
    let live = turn.machine.server.state.live();
    match role {
        Role::Leader(writer) if !live => leader_finds_ended(writer, turn),
        Role::Ending(writer, why) if !live => has_ended(writer, why, turn),
        Role::Follower if live => Role::Unleased,
        Role::Holder(lease) if live => holder_finds_live(lease),
        Role::Ready(armed) if live => ready_finds_live(armed, turn),
        Role::Unleased if !live => unleased_finds_ended(turn),
        role => role,
    }
}

/// A leader finds that its server has ended: it keeps the leader key, and the crash is noted.
fn leader_finds_ended(writer: Writer, turn: &mut Turn) -> Role
    requires turn { HasLeft 1 0 turn.old }
    requires ended { live turn.old.machine.now.server.state ≡ false }
    ensures outcome { reached (role_of result) turn.new ≡ leader_finds_ended turn.old.moment (writer_revision writer) (reached (Leader (writer_revision writer)) turn.old) }
    ensures server { turn.new.machine.now.server ≡ turn.old.machine.now.server }
    ensures left { Spent 1 0 turn.old turn.new }
{
    turn.knows.crashed = Some(noted_or(turn.moment, turn.knows.crashed));
    Role::Holder(turn.end_writer(writer))
}

fn noted_or(now: Ticks, noted: Option<Ticks>) -> Ticks
    ensures { result ≡ noted_or now noted }
{
    match noted {
        None => now,
        Some(moment) => moment,
    }
}

/// An agent that ends its server finds that it has ended: it gives up the leader key, if it has that still.
fn has_ended(writer: Writer, why: Why, turn: &mut Turn) -> Role
    requires turn { HasLeft 2 1 turn.old }
    requires ended { live turn.old.machine.now.server.state ≡ false }
    ensures outcome { reached (role_of result) turn.new ≡ has_ended why (writer_revision writer) (reached (Ending (writer_revision writer) why) turn.old) }
    ensures server { turn.new.machine.now.server ≡ turn.old.machine.now.server }
    ensures left { Spent 2 1 turn.old turn.new }
{
    let lease = turn.end_writer(writer);
    match why {
        Why::HandOver => turn.release(lease),
        Why::Lost => lease.lost(),
    }
    Role::Follower
}

/// A holder finds its server live: its lease counts as lost.
fn holder_finds_live(lease: Lease) -> Role
    ensures { role_of result ≡ Unleased }
{
    lease.lost();
    Role::Unleased
}

/// What was armed is given up where the server is found live.
fn ready_finds_live(armed: Armed, turn: &mut Turn) -> Role
    requires { HasLeft 1 0 turn.old }
    ensures role { role_of result ≡ Unleased }
    ensures outcome { ComesTo disarming turn.old turn.new }
    ensures left { Spent 1 0 turn.old turn.new }
{
    turn.undo(armed).lost();
    Role::Unleased
}

/// An agent without a lease finds that its server has ended.
fn unleased_finds_ended(turn: &mut Turn) -> Role
    requires { HasLeft 1 0 turn.old }
    ensures role { role_of result ≡ Follower }
    ensures outcome { ComesTo disarming turn.old turn.new }
    ensures left { Spent 1 0 turn.old turn.new }
{
    turn.disarm();
    Role::Follower
}
