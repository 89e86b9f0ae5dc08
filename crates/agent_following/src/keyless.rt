//! What an agent does whose server is live without the leader key.
ghost use Rattle.std.specs.Prelude.{◌≡◌};
ghost use Rattle.agent_turn.specs.Turns.{ComesTo, HasLeft, Spent, reached};
ghost use Rattle.agent_model.specs.Agents.{IsWithin, Leader, Unleased};
ghost use Rattle.agent_model.specs.Snapshots.{asks_as_unleased, leader_finds_free, leader_without_key, unleased_finds_free, unleased_without_key};
ghost use Rattle.agent_turn.specs.Roles.{role_of};
ghost use Rattle.leader_key.specs.Lease.{writer_revision};

use crate::racing::create;
use agent_turn::{Role, Turn, is_paused};
use event_book::Reason;
use leader_key::Writer;

/// A leader doesn't have the leader key: it ends its server, but in a pause that runs on.
pub fn leader_without_key(writer: Writer, turn: &mut Turn) -> Role
    requires turn { HasLeft 1 0 turn.old }
    requires server { IsWithin turn.old.machine.now.server }
    ensures outcome { reached (role_of result) turn.new ≡ leader_without_key turn.old.moment (writer_revision writer) (reached (Leader (writer_revision writer)) turn.old) }
    ensures left { Spent 1 0 turn.old turn.new }
{
    if is_paused(turn.knows) {
        writer.wreck();
        turn.run_without_key()
    } else {
        turn.lose(writer, Reason::LeaderKeyLost)
    }
}

/// So does one that has no lease while its server is live.
pub fn unleased_without_key(turn: &mut Turn) -> Role
    requires turn { HasLeft 1 0 turn.old }
    requires server { IsWithin turn.old.machine.now.server }
    ensures outcome { reached (role_of result) turn.new ≡ unleased_without_key turn.old.moment (reached Unleased turn.old) }
    ensures left { Spent 1 0 turn.old turn.new }
{
    if is_paused(turn.knows) {
        return turn.run_without_key();
    }
    turn.end_server(Reason::LeaderKeyLost);
    Role::Unleased
}

/// In a pause a server runs on while nobody leads, and its agent asks for the leader key.
fn ask_as_unleased(turn: &mut Turn) -> Role
    requires { HasLeft 2 1 turn.old }
    ensures role { role_of result ≡ Unleased }
    ensures outcome { ComesTo (asks_as_unleased turn.old.moment) turn.old turn.new }
    ensures left { Spent 2 1 turn.old turn.new }
{
    let role = turn.run_without_key();
    create(turn);
    role
}

/// A leader finds that nobody leads.
pub fn leader_finds_free(writer: Writer, turn: &mut Turn) -> Role
    requires turn { HasLeft 2 1 turn.old }
    requires server { IsWithin turn.old.machine.now.server }
    ensures outcome { reached (role_of result) turn.new ≡ leader_finds_free turn.old.moment (writer_revision writer) (reached (Leader (writer_revision writer)) turn.old) }
    ensures left { Spent 2 1 turn.old turn.new }
{
    if is_paused(turn.knows) {
        writer.wreck();
        ask_as_unleased(turn)
    } else {
        turn.lose(writer, Reason::LeaderKeyLost)
    }
}

/// So does one that has no lease while its server is live.
pub fn unleased_finds_free(turn: &mut Turn) -> Role
    requires turn { HasLeft 2 1 turn.old }
    requires server { IsWithin turn.old.machine.now.server }
    ensures outcome { reached (role_of result) turn.new ≡ unleased_finds_free turn.old.moment (reached Unleased turn.old) }
    ensures left { Spent 2 1 turn.old turn.new }
{
    if is_paused(turn.knows) {
        return ask_as_unleased(turn);
    }
    turn.end_server(Reason::LeaderKeyLost);
    Role::Unleased
}
