//! What a member without a lease does about a free leader key: it races for it where nothing bars it.
ghost use Rattle.std.specs.Prelude.{◌≡◌, option_map};
ghost use Rattle.agent_turn.specs.Turns.{ComesTo, HasLeft, Spent, reached};
ghost use Rattle.agent_model.specs.Agents.{Follower, IsWithin, RoleFacts, word_of};
ghost use Rattle.pat_base.specs.declared.member_id.TheConstants.{MOST_MEMBERS};
ghost use Rattle.agent_model.specs.Racing.{asking_others, bar_of, barred, can_start, creating, finds_free, judged, races, races_unless, starts_alone, turn_keys};
ghost use Rattle.agent_model.specs.declared.knowledge.SyncRead.{SyncRead};
ghost use Rattle.cluster_view.specs.KeyValues.{active_sync_where};
ghost use Rattle.leader_race.specs.Outcome.{outcome_by};
ghost use Rattle.agent_model.specs.Peers.{judged_if_racing};
ghost use Rattle.agent_turn.specs.Roles.{role_of};
ghost use Rattle.agent_model.specs.Views.{view_of};

use crate::following::start_replica;
use agent_model::{
    Inquiry, Knowledge, Machine, Noting, Output, PendingQuestion, Question, SyncRead,
};
use agent_turn::{
    Role, Turn, all_answered, answers_until, ask_all, failsafe_compared, info_of, is_paused,
    may_create, view_of, word_of,
};
use cluster_view::RoleWord;
use event_book::AgentNote;
use leader_race::{RaceKeys, may_race, wins_by};
use pat_base::{Ineligibility, State, Ticks};
use pg_model::ServerStatus;
use store_keys::{LeaseTxn, SyncKey, Txn};

/// Nobody leads: a server that can start does so as a replica of none, and its agent tells of itself; else the member races,
/// unless something bars it.
pub fn finds_free(turn: &mut Turn) -> Role
    requires turn { HasLeft MOST_MEMBERS 1 turn.old }
    requires server { IsWithin turn.old.machine.now.server }
    ensures outcome { reached (role_of result) turn.new ≡ finds_free turn.old.moment (reached Follower turn.old) }
    ensures left { Spent MOST_MEMBERS 1 turn.old turn.new }
{
    if can_start(&turn.machine.server) {
        start_alone(turn);
        turn.touch();
    } else {
        race_unless(bar_of(turn.moment, turn.knows, turn.machine), turn);
    }
    Role::Follower
}

/// A server starts as a replica of none, but in a pause.
fn start_alone(turn: &mut Turn)
    requires turn { HasLeft 1 0 turn.old }
    requires server { IsWithin turn.old.machine.now.server }
    ensures outcome { reached Follower turn.new ≡ starts_alone turn.old.moment (reached Follower turn.old) }
    ensures left { Spent 1 0 turn.old turn.new }
{
    if !is_paused(turn.knows) {
        start_replica(turn, None);
    }
}

/// Whether a server can start as a replica: it is down, and its log didn't diverge.
fn can_start(server: &ServerStatus) -> bool
    ensures { result ≡ can_start server.now }
{
    matches!(server.state, State::Stopped | State::Crashed) && !server.diverged
}

/// What bars a member without a lease from racing for the leader key, by what it shows at this moment.
fn bar_of(now: Ticks, knows: &Knowledge, machine: &Machine) -> Option<Ineligibility>
    ensures { result ≡ bar_of now knows.now machine.now }
{
    let Some(seen) = &knows.seen else {
        return None;
    };
    let view = view_of(now, RoleWord::Follower, knows, machine);
    may_race(&view, seen).err()
}

/// What a member does about the free leader key, by what bars it.
fn race_unless(bar: Option<Ineligibility>, turn: &mut Turn)
    requires { HasLeft MOST_MEMBERS 1 turn.old }
    ensures outcome { reached Follower turn.new ≡ races_unless turn.old.moment bar (reached Follower turn.old) }
    ensures left { Spent MOST_MEMBERS 1 turn.old turn.new }
{
    match bar {
        None => race(turn),
        Some(bar) => stay_out(bar, turn),
    }
}

/// A member that nothing bars races: it asks the others, or is judged at once where there is none.
fn race(turn: &mut Turn)
    requires { HasLeft MOST_MEMBERS 1 turn.old }
    ensures outcome { reached Follower turn.new ≡ races turn.old.moment (reached Follower turn.old) }
    ensures left { Spent MOST_MEMBERS 1 turn.old turn.new }
{
    let who = turn.knows.who;
    turn.knows.answers.forget();
    if all_answered(&who, &turn.knows.answers) {
        judge(RoleWord::Follower, turn);
    } else {
        ask_others(turn);
    }
}

/// The time for answers is over: the race is judged by those that there are, in a role that races.
pub fn judge_if_racing(role: &Role, turn: &mut Turn)
    requires { HasLeft 2 1 turn.old }
    ensures outcome { reached (role_of role.now) turn.new ≡ judged_if_racing turn.old.moment (reached (role_of role.now) turn.old) }
    ensures left { Spent 2 1 turn.old turn.new }
{
    if may_create(role) {
        judge(word_of(role), turn);
    } else {
        turn.knows.waited = None;
    }
}

/// The race is judged, of a member in the role of this word: no answers are waited for any more.
pub fn judge(word: RoleWord, turn: &mut Turn)
    requires { HasLeft 2 1 turn.old }
    ensures outcome { (role : RoleFacts) → word_of role ≡ word → reached role turn.new ≡ judged turn.old.moment (reached role turn.old) }
    ensures left { Spent 2 1 turn.old turn.new }
{
    let bar = outcome_at(turn.moment, word, turn.knows, turn.machine);
    turn.knows.waited = None;
    match bar {
        None => create(turn),
        Some(bar) => stay_out(bar, turn),
    }
}

/// What bars a member from winning the race: by what the turn that asked read of the key store, by the answers that it heard,
/// and by what it shows at this moment.
fn outcome_at(
    now: Ticks,
    word: RoleWord,
    knows: &Knowledge,
    machine: &Machine,
) -> Option<Ineligibility>
    ensures { result ≡ outcome_by (view_of now word knows.now machine.now) (turn_keys knows.now) knows.now.answers }
{
    let view = view_of(now, word, knows, machine);
    wins_by(&view, &turn_keys(knows), knows.answers.all()).err()
}

/// What the last turn read that a race is judged by.
fn turn_keys(knows: &Knowledge) -> RaceKeys
    ensures { result ≡ turn_keys knows.now }
{
    RaceKeys {
        failover: knows.turn_failover,
        sync: active_sync(knows.turn_settings.synchronous_mode, knows.turn_sync),
    }
}

/// The sync key that was read, where the synchronous mode is on.
fn active_sync(mode: bool, read: Option<SyncRead>) -> Option<SyncKey>
    ensures { result ≡ active_sync_where mode (option_map (λ (read : SyncRead). read.key) read) }
{
    if mode {
        read.map(|read| read.key)
    } else {
        None
    }
}

/// A member that is barred tells by what, and tells of itself.
pub(crate) fn stay_out(bar: Ineligibility, turn: &mut Turn)
    requires { HasLeft 2 1 turn.old }
    ensures outcome { ComesTo (barred bar) turn.old turn.new }
    ensures left { Spent 2 1 turn.old turn.new }
{
    turn.out.put(Output::Note(Noting::Agent(AgentNote::DoesNotRace { because: bar })));
    turn.touch();
}

/// Asks for the leader key.
pub(crate) fn create(turn: &mut Turn)
    requires { HasLeft 1 1 turn.old }
    ensures outcome { ComesTo (creating turn.old.moment) turn.old turn.new }
    ensures left { Spent 1 1 turn.old turn.new }
{
    let create = Txn::Lease(LeaseTxn::Create {
        info: info_of(&turn.knows.who, &turn.machine.server),
        ttl: turn.knows.settings.ttl_ticks(),
        failsafe: failsafe_compared(turn.knows),
        sync: None,
    });
    let until = turn.moment + turn.knows.settings.retry_timeout_ticks();
    turn.ask(Question::Creating, until, Inquiry::request(create));
}

/// Asks each other member how far its server is, all under one number, and waits for the answers.
pub(crate) fn ask_others(turn: &mut Turn)
    requires { HasLeft MOST_MEMBERS 1 turn.old }
    ensures outcome { ComesTo (asking_others turn.old.moment) turn.old turn.new }
    ensures left { Spent MOST_MEMBERS 1 turn.old turn.new }
{
    let who = turn.knows.who;
    turn.knows.sequence += 1;
    ask_all(&who, turn.knows.sequence, turn.out);
    turn.knows.waited = Some(PendingQuestion {
        question: Question::ComparingPositions,
        sequence: turn.knows.sequence,
        until: answers_until(turn.moment),
        ttl: turn.knows.settings.ttl_ticks(),
        sent: turn.moment,
    });
}
