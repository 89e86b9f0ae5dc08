//! How the log of a server is repaired by that of the leader's.
ghost use Rattle.std.specs.Prelude.{◌≡◌};
ghost use Rattle.agent_turn.specs.Turns.{ComesTo, HasLeft, Spent};
ghost use Rattle.agent_model.specs.Snapshots.{follows};
ghost use Rattle.agent_model.specs.Repairs.{is_upstream, repair_in, repair_of, repaired_if, rewind_if};

use agent_model::{Output, Repair, ServerOrder};
use agent_turn::{Turn, lets_rewind};
use pat_base::{MemberId, ServerId, State};
use pg_model::ServerStatus;
use store_keys::Config;

/// How the log of a server is repaired by this leader's, if it has to be and may be.
pub fn repair_of(settings: &Config, leader: MemberId, server: &ServerStatus) -> Option<Repair>
    ensures { result ≡ repair_of settings.now leader server.now }
{
    repair_in(
        lets_rewind(settings),
        is_upstream(leader, server.upstream),
        server.diverged,
        server.state,
    )
}

/// How the log of a server in this state is repaired, which may have diverged.
fn repair_in(lets: bool, follows: bool, diverged: bool, state: State) -> Option<Repair>
    ensures { result ≡ repair_in lets follows diverged state }
{
    match state {
        State::Replica => rewind_if(lets && follows, diverged),
        State::Stopped => rewind_if(lets, diverged),
        State::Creating => Some(Repair::Clone),
        _ => None,
    }
}

fn rewind_if(lets: bool, diverged: bool) -> Option<Repair>
    ensures { result ≡ rewind_if lets diverged }
{
    if lets && diverged {
        Some(Repair::Rewind)
    } else {
        None
    }
}

/// The server follows this member's already.
pub(crate) fn is_upstream(leader: MemberId, upstream: Option<ServerId>) -> bool
    ensures { result ≡ is_upstream leader upstream }
{
    match upstream {
        None => false,
        Some(upstream) => upstream.number == leader.number,
    }
}

/// Has the log of the server repaired, if it has to be.
pub fn put_repair(leader: MemberId, repair: Option<Repair>, turn: &mut Turn)
    requires { HasLeft 1 0 turn.old }
    ensures outcome { ComesTo (repaired_if leader repair) turn.old turn.new }
    ensures left { Spent 1 0 turn.old turn.new }
{
    if let Some(repair) = repair {
        turn.out
            .put(Output::Server(ServerOrder::Repair { leader, repair }));
    }
}
