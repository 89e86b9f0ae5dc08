//! What the server of a member does under another leader, or under none.
ghost use Rattle.std.specs.Prelude.{◌≡◌};
ghost use Rattle.agent_turn.specs.Turns.{ComesTo, HasLeft, Spent, reached};
ghost use Rattle.agent_model.specs.Agents.{Follower, IsWithin};
ghost use Rattle.agent_model.specs.Snapshots.{ends_fork, follow_row, follows_anew, starts_behind};
ghost use Rattle.event_book.specs.Members.{server_id_of};
ghost use Rattle.agent_model.specs.Acting.{starting_replica, upstream_of};

use crate::repairing::is_upstream;
use agent_model::{Output, ServerOrder};
use agent_turn::{Turn, ends_forks};
use pat_base::{MemberId, ServerId, State};

/// What a server does under another leader, by whether its agent may start it.
pub fn follow_row(may_start: bool, turn: &mut Turn, leader: MemberId)
    requires turn { HasLeft 1 0 turn.old }
    requires server { IsWithin turn.old.machine.now.server }
    ensures outcome { reached Follower turn.new ≡ follow_row may_start turn.old.moment leader turn.old.machine.now.server.state (reached Follower turn.old) }
    ensures left { Spent 1 0 turn.old turn.new }
{
    match turn.machine.server.state {
        State::Stopped | State::Crashed if may_start => {
            start_behind(turn, Some(leader));
        }
        State::Replica => follow_anew(turn, leader),
        _ => {}
    }
}

/// A server that is down starts as a replica of this member's, or of none, unless its log diverged.
pub(crate) fn start_behind(turn: &mut Turn, leader: Option<MemberId>)
    requires turn { HasLeft 1 0 turn.old }
    requires server { IsWithin turn.old.machine.now.server }
    ensures outcome { ComesTo (starts_behind turn.old.moment leader) turn.old turn.new }
    ensures left { Spent 1 0 turn.old turn.new }
{
    if !turn.machine.server.diverged {
        start_replica(turn, leader);
    }
}

/// A server starts as a replica of this member's, or of none.
pub(crate) fn start_replica(turn: &mut Turn, leader: Option<MemberId>)
    requires turn { HasLeft 1 0 turn.old }
    requires server { IsWithin turn.old.machine.now.server }
    ensures outcome { ComesTo (starting_replica turn.old.moment leader) turn.old turn.new }
    ensures left { Spent 1 0 turn.old turn.new }
{
    turn.machine
        .server
        .start_replica(turn.moment, upstream_of(leader));
    turn.out
        .put(Output::Server(ServerOrder::StartReplica { leader }));
}

fn upstream_of(leader: Option<MemberId>) -> Option<ServerId>
    ensures { result ≡ upstream_of leader }
{
    match leader {
        None => None,
        Some(leader) => Some(server_of(leader)),
    }
}

fn server_of(member: MemberId) -> ServerId
    ensures { result ≡ server_id_of member }
{
    ServerId::of(member)
}

/// A replica of another server, or of none, follows this member's.
fn follow_anew(turn: &mut Turn, leader: MemberId)
    requires turn { HasLeft 1 0 turn.old }
    requires server { IsWithin turn.old.machine.now.server }
    ensures outcome { reached Follower turn.new ≡ follows_anew turn.old.moment leader (reached Follower turn.old) }
    ensures left { Spent 1 0 turn.old turn.new }
{
    if is_upstream(leader, turn.machine.server.upstream) {
        end_fork(turn);
    } else {
        turn.machine.server.follow(server_of(leader));
        turn.out.put(Output::Server(ServerOrder::Follow { leader }));
    }
}

/// A replica whose log diverged shuts down, where it may not be rewound.
fn end_fork(turn: &mut Turn)
    requires turn { HasLeft 1 0 turn.old }
    requires server { IsWithin turn.old.machine.now.server }
    ensures outcome { reached Follower turn.new ≡ ends_fork turn.old.moment (reached Follower turn.old) }
    ensures left { Spent 1 0 turn.old turn.new }
{
    if turn.machine.server.diverged && ends_forks(&turn.knows.settings) {
        turn.machine.server.stop(turn.moment);
        turn.out.put(Output::Server(ServerOrder::ShutDown));
    }
}
