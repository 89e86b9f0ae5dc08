//! What a woken agent does: an operator whose time is over comes first, then a deadline that has passed, and then a turn that is
//! due.
ghost use Rattle.std.specs.Prelude.{◌≡◌};
ghost use Rattle.agent_turn.specs.Turns.{ComesTo, HasLeft, Spent, reached};
ghost use Rattle.agent_model.specs.Agents.{IsWithin};
ghost use Rattle.pat_base.specs.declared.member_id.TheConstants.{MOST_MEMBERS};
ghost use Rattle.agent_model.specs.Wake.{due_from, finds_ended, has_turn, is_due, is_overdue, is_stopping, out_of_reach, overdue, reading, turn_begins, turned, unanswered, waits_until, woken};
ghost use Rattle.agent_turn.specs.Roles.{role_of};

use agent_following::judge_if_racing;
use agent_leadership::{claim_fails, judge_if_leading, leader_unanswered, unacknowledged};
use agent_model::{Inquiry, Knowledge, Machine, PendingQuestion, Question};
use agent_turn::{Role, Turn, is_paused};
use agent_upkeep::{give_up, reconcile};
use event_book::Reason;
use pat_base::{State, Ticks};

/// A wake.
pub(crate) fn wake(role: Role, turn: &mut Turn) -> Role
    requires turn { HasLeft 20 3 turn.old }
    requires server { IsWithin turn.old.machine.now.server }
    ensures outcome { reached (role_of result) turn.new ≡ woken turn.old.moment (reached (role_of role) turn.old) }
    ensures left { Spent 20 3 turn.old turn.new }
{
    let due = is_due(&role, turn.knows, turn.machine, turn.moment);
    let role = reconcile(role, turn);
    if !due {
        return role;
    }
    give_up(turn);
    let role = overdue(role, turn);
    turned(&role, turn);
    role
}

/// Whether there is something to do for an agent that is woken.
pub fn is_due(role: &Role, knows: &Knowledge, machine: &Machine, now: Ticks) -> bool
    ensures { result ≡ is_due now (role_of role.now) knows.now machine.now }
{
    finds_ended(role, machine.server.state) || is_overdue(now, knows.waited) || has_turn(now, knows)
}

/// An agent that ends its server can find that it has ended.
fn finds_ended(role: &Role, state: State) -> bool
    ensures { result ≡ finds_ended (role_of role.now) state }
{
    match role {
        Role::Ending(_, _) => !state.live(),
        _ => false,
    }
}

fn is_overdue(now: Ticks, waited: Option<PendingQuestion>) -> bool
    ensures { result ≡ is_overdue now waited }
{
    match waited {
        None => false,
        Some(waited) => waited.until <= now,
    }
}

fn has_turn(now: Ticks, knows: &Knowledge) -> bool
    ensures { result ≡ has_turn now knows.now }
{
    knows.waited.is_none() && knows.next_turn <= now
}

/// From when on there is something to do for an agent whose server is in this state.
pub fn due_from(role: &Role, knows: &Knowledge, state: State) -> Ticks
    ensures { result ≡ due_from (role_of role.now) knows.now state }
{
    if finds_ended(role, state) {
        return Ticks(0);
    }
    waits_until(knows.waited, knows.next_turn)
}

fn waits_until(waited: Option<PendingQuestion>, next_turn: Ticks) -> Ticks
    ensures { result ≡ waits_until waited next_turn }
{
    match waited {
        None => next_turn,
        Some(waited) => waited.until,
    }
}

/// A deadline that has passed.
fn overdue(role: Role, turn: &mut Turn) -> Role
    requires turn { HasLeft MOST_MEMBERS 1 turn.old }
    requires server { IsWithin turn.old.machine.now.server }
    ensures outcome { reached (role_of result) turn.new ≡ overdue turn.old.moment (reached (role_of role) turn.old) }
    ensures left { Spent MOST_MEMBERS 1 turn.old turn.new }
{
    let Some(waited) = turn.knows.waited else {
        return role;
    };
    if turn.moment < waited.until {
        return role;
    }
    unanswered(waited.question, role, turn)
}

/// A question isn't answered in time.
fn unanswered(question: Question, role: Role, turn: &mut Turn) -> Role
    requires turn { HasLeft MOST_MEMBERS 1 turn.old }
    requires server { IsWithin turn.old.machine.now.server }
    ensures outcome { reached (role_of result) turn.new ≡ unanswered turn.old.moment question (reached (role_of role) turn.old) }
    ensures left { Spent MOST_MEMBERS 1 turn.old turn.new }
{
    match question {
        Question::Reading | Question::Renewing => out_of_reach(role, turn),
        Question::ComparingPositions => {
            judge_if_racing(&role, turn);
            role
        }
        Question::FindingCandidate => judge_if_leading(role, turn),
        Question::StayingPrimary => unacknowledged(role, turn),
        Question::Claiming => {
            turn.knows.waited = None;
            claim_fails(role, turn)
        }
        Question::Creating | Question::Syncing(_) => {
            turn.knows.waited = None;
            role
        }
    }
}

/// A leader whose read or renewal isn't answered in time ends its server, since another may have its key soon, unless all other
/// members may let it stay. So does one that has no lease while its server is live. In a pause their servers run on.
fn out_of_reach(role: Role, turn: &mut Turn) -> Role
    requires turn { HasLeft MOST_MEMBERS 1 turn.old }
    requires server { IsWithin turn.old.machine.now.server }
    ensures outcome { reached (role_of result) turn.new ≡ out_of_reach turn.old.moment (reached (role_of role) turn.old) }
    ensures left { Spent MOST_MEMBERS 1 turn.old turn.new }
{
    turn.knows.waited = None;
    if is_paused(turn.knows) {
        return role;
    }
    match role {
        Role::Leader(writer) => leader_unanswered(writer, turn),
        Role::Unleased => {
            turn.end_server(Reason::StoreOutOfReach);
            Role::Unleased
        }
        role => role,
    }
}

/// A turn begins, if one is due.
fn turned(role: &Role, turn: &mut Turn)
    requires { HasLeft 1 1 turn.old }
    ensures outcome { reached (role_of role.now) turn.new ≡ turned turn.old.moment (reached (role_of role.now) turn.old) }
    ensures left { Spent 1 1 turn.old turn.new }
{
    if has_turn(turn.moment, turn.knows) {
        turn_begins(role, turn);
    }
}

/// A turn begins. Who ends its server only waits for that.
fn turn_begins(role: &Role, turn: &mut Turn)
    requires { HasLeft 1 1 turn.old }
    ensures outcome { reached (role_of role.now) turn.new ≡ turn_begins turn.old.moment (reached (role_of role.now) turn.old) }
    ensures left { Spent 1 1 turn.old turn.new }
{
    turn.knows.last_turn = Some(turn.moment);
    turn.knows.next_turn = turn.moment + turn.knows.settings.loop_wait_ticks();
    match role {
        Role::Ending(_, _) => {}
        Role::Unleased if is_stopping(turn.machine.server.state) => {}
        _ => read(turn),
    }
}

fn is_stopping(state: State) -> bool
    ensures { result ≡ is_stopping state }
{
    matches!(state, State::Stopping { .. })
}

/// Asks what the key store holds.
fn read(turn: &mut Turn)
    requires { HasLeft 1 1 turn.old }
    ensures outcome { ComesTo (reading turn.old.moment) turn.old turn.new }
    ensures left { Spent 1 1 turn.old turn.new }
{
    let until = turn.moment + turn.knows.settings.retry_timeout_ticks();
    turn.ask(Question::Reading, until, Inquiry::read());
}
