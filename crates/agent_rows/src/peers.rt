//! What members ask one another, and the race for a free leader key that is judged by what they answer.
ghost use Rattle.std.specs.Prelude.{◌≡◌};
ghost use Rattle.agent_turn.specs.Turns.{ComesTo, HasLeft, Spent, reached};
ghost use Rattle.agent_model.specs.Agents.{IsWithin};
ghost use Rattle.agent_model.specs.Peers.{accepted_answer, answered, asked, awaits_answer, awaits_check, is_asking, is_checking};
ghost use Rattle.agent_model.specs.Answers.{peer_answer_of};
ghost use Rattle.agent_turn.specs.Roles.{role_of};

use agent_following::judge;
use agent_leadership::hear_successor;
use agent_model::{Outgoing, Output, PendingQuestion, Question, Who};
use agent_turn::{Role, Turn, all_answered, may_create, runs, word_of};
use pat_base::{MemberId, PeerAnswer};
use pg_model::ServerStatus;

/// Another member asks: it is answered at once.
pub(crate) fn asked(turn: &mut Turn, from: MemberId, incarnation: u64, sequence: u64)
    requires { HasLeft 1 0 turn.old }
    ensures outcome { ComesTo (asked from incarnation sequence) turn.old turn.new }
    ensures left { Spent 1 0 turn.old turn.new }
{
    let answer = peer_answer_of(&turn.knows.who, &turn.machine.server);
    turn.out.put(Output::Message(Outgoing::Answer {
        to: from,
        incarnation,
        sequence,
        answer,
    }));
}

/// How far a member's server is.
fn peer_answer_of(who: &Who, server: &ServerStatus) -> PeerAnswer
    ensures { result ≡ peer_answer_of who.now server.now }
{
    PeerAnswer {
        member: who.me,
        writes: server.state.writes(),
        end: if runs(server.state) { server.end } else { None },
        tags: who.tags,
    }
}

/// Another member answers: what is waited for is used, and any other dropped.
pub(crate) fn answered(role: Role, turn: &mut Turn, sequence: u64, answer: PeerAnswer) -> Role
    requires turn { HasLeft 2 1 turn.old }
    requires server { IsWithin turn.old.machine.now.server }
    ensures outcome { reached (role_of result) turn.new ≡ answered turn.old.moment sequence answer (reached (role_of role) turn.old) }
    ensures left { Spent 2 1 turn.old turn.new }
{
    let Some(waited) = turn.knows.waited else {
        return role;
    };
    if awaits_answer(waited, sequence) {
        accept_answer(&role, turn, answer);
        return role;
    }
    if awaits_check(waited, sequence) {
        return hear_successor(role, turn, answer);
    }
    role
}

/// A leader waits for answers of this number.
fn awaits_check(waited: PendingQuestion, sequence: u64) -> bool
    ensures { result ≡ awaits_check waited sequence }
{
    is_checking(waited.question) && waited.sequence == sequence
}

fn is_checking(question: Question) -> bool
    ensures { result ≡ is_checking question }
{
    matches!(question, Question::FindingCandidate)
}

/// Answers of this number are waited for in a race.
fn awaits_answer(waited: PendingQuestion, sequence: u64) -> bool
    ensures { result ≡ awaits_answer waited sequence }
{
    is_asking(waited.question) && waited.sequence == sequence
}

fn is_asking(question: Question) -> bool
    ensures { result ≡ is_asking question }
{
    matches!(question, Question::ComparingPositions)
}

/// An answer that is waited for counts in a role that races.
fn accept_answer(role: &Role, turn: &mut Turn, answer: PeerAnswer)
    requires { HasLeft 2 1 turn.old }
    ensures outcome { reached (role_of role.now) turn.new ≡ accepted_answer turn.old.moment answer (reached (role_of role.now) turn.old) }
    ensures left { Spent 2 1 turn.old turn.new }
{
    if !may_create(role) {
        turn.knows.waited = None;
        return;
    }
    let who = turn.knows.who;
    turn.knows.answers.keep(answer);
    if all_answered(&who, &turn.knows.answers) {
        judge(word_of(role), turn);
    }
}
