//! How a member begins that has the leader key: in synchronous mode it claims the sync key first (Patroni documentation,
//! "Replication modes").
ghost use Rattle.std.specs.Prelude.{◌≡◌};
ghost use Rattle.agent_turn.specs.Turns.{ComesTo, HasLeft, Spent, reached};
ghost use Rattle.agent_model.specs.Agents.{Follower, Holder, IsWithin, Ready};
ghost use Rattle.agent_model.specs.Acting.{armed};
ghost use Rattle.leader_key.specs.Lease.{armed_revision};
ghost use Rattle.agent_model.specs.Claiming.{begins, begins_or_claims, can_begin_on_claim, claim_fails, claim_granted, claims, may_begin_on_claim, passing, postpones};
ghost use Rattle.agent_turn.specs.Roles.{role_of};

use agent_model::{Inquiry, Knowledge, Noting, Output, Question, ServerOrder, Telling};
use agent_turn::{Role, Turn, expected_of, is_named_if, is_paused, is_wanted_by, unnamed};
use event_book::AgentNote;
use leader_key::{Armed, Writer};
use pat_base::State;
use pg_model::ServerStatus;
use store_keys::{SyncTxn, Txn};

/// An agent with an armed watchdog begins; in synchronous mode it claims the sync key first.
pub(crate) fn begin_or_claim(armed: Armed, turn: &mut Turn) -> Role
    requires turn { HasLeft 2 1 turn.old }
    requires server { IsWithin turn.old.machine.now.server }
    ensures outcome { reached (role_of result) turn.new ≡ begins_or_claims turn.old.moment (armed_revision armed) (reached Follower turn.old) }
    ensures left { Spent 2 1 turn.old turn.new }
{
    if turn.knows.turn_settings.synchronous_mode {
        tell_passing(turn);
        claim(armed, turn)
    } else {
        begin(armed, turn)
    }
}

/// The member notes where the sync key, as its turn read it, doesn't name it: a failover by hand alone lets it lead then.
fn tell_passing(turn: &mut Turn)
    requires { HasLeft 1 0 turn.old }
    ensures outcome { ComesTo passing turn.old turn.new }
    ensures left { Spent 1 0 turn.old turn.new }
{
    if !is_named_if(turn.knows.who.me, turn.knows.turn_sync) {
        turn.out.put(Output::Tell(Telling::ClaimsOutsideSync));
    }
}

/// The agent claims the sync key, as its turn read it, and is about to begin.
fn claim(armed: Armed, turn: &mut Turn) -> Role
    requires { HasLeft 1 1 turn.old }
    ensures role { role_of result ≡ Ready (armed_revision armed) }
    ensures outcome { ComesTo (claims turn.old.moment (armed_revision armed)) turn.old turn.new }
    ensures left { Spent 1 1 turn.old turn.new }
{
    let claim = Txn::Sync(SyncTxn::Claim {
        revision: armed.revision(),
        sync: expected_of(turn.knows.turn_sync),
    });
    let until = turn.moment + turn.knows.settings.retry_timeout_ticks();
    turn.ask(Question::Claiming, until, Inquiry::request(claim));
    Role::Ready(armed)
}

/// The member begins: its commits wait for no named standby, and the server begins to accept writes.
fn begin(armed: Armed, turn: &mut Turn) -> Role
    requires turn { HasLeft 2 0 turn.old }
    requires server { IsWithin turn.old.machine.now.server }
    ensures outcome { reached (role_of result) turn.new ≡ begins turn.old.moment (armed_revision armed) (reached Follower turn.old) }
    ensures left { Spent 2 0 turn.old turn.new }
{
    turn.knows.begun = Some(turn.moment);
    turn.knows.crashed = None;
    let required = unnamed(&turn.knows.turn_settings);
    turn.require(required);
    turn.out.put(Output::Server(ServerOrder::Begin));
    turn.machine.server.promote();
    turn.machine.server.start_primary(turn.moment);
    Role::Leader(Writer::begin(armed))
}

/// The claim is granted: the member begins, where it may.
pub fn claim_granted(armed: Armed, turn: &mut Turn) -> Role
    requires turn { HasLeft 2 0 turn.old }
    requires server { IsWithin turn.old.machine.now.server }
    ensures outcome { reached (role_of result) turn.new ≡ claim_granted turn.old.moment (armed_revision armed) (reached (Ready (armed_revision armed)) turn.old) }
    ensures left { Spent 2 0 turn.old turn.new }
{
    if may_begin_on_claim(turn.knows, &turn.machine.server) {
        begin(armed, turn)
    } else {
        postpone(armed, turn)
    }
}

/// A member may begin on a granted claim, where its server still can; in a pause where an operator wants it to lead.
fn may_begin_on_claim(knows: &Knowledge, server: &ServerStatus) -> bool
    ensures { result ≡ may_begin_on_claim knows.now server.now }
{
    if is_paused(knows) {
        is_wanted_by(knows.who.me, knows.seen.as_ref(), server.state)
    } else {
        can_begin_on_claim(server.was_primary, server.state)
    }
}

/// A server can begin on a granted claim: a replica, or one that is down and was a primary.
fn can_begin_on_claim(was_primary: bool, state: State) -> bool
    ensures { result ≡ can_begin_on_claim was_primary state }
{
    match state {
        State::Replica => true,
        State::Stopped | State::Crashed => was_primary,
        _ => false,
    }
}

/// A claim of the sync key fails: who is about to begin on it doesn't.
pub fn claim_fails(role: Role, turn: &mut Turn) -> Role
    requires { HasLeft 2 0 turn.old }
    ensures outcome { reached (role_of result) turn.new ≡ claim_fails (reached (role_of role) turn.old) }
    ensures left { Spent 2 0 turn.old turn.new }
{
    match role {
        Role::Ready(armed) => postpone(armed, turn),
        role => role,
    }
}

/// The member keeps the leader key, and its promotion is postponed: what was armed is given up.
fn postpone(armed: Armed, turn: &mut Turn) -> Role
    requires { HasLeft 2 0 turn.old }
    ensures role { role_of result ≡ Holder (armed_revision armed) }
    ensures outcome { ComesTo (postpones (armed_revision armed)) turn.old turn.new }
    ensures left { Spent 2 0 turn.old turn.new }
{
    let lease = turn.undo(armed);
    turn.out
        .put(Output::Note(Noting::Agent(AgentNote::PostponesPromotion)));
    Role::Holder(lease)
}
