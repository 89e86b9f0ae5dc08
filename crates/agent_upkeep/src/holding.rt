//! How a member promises another one not to take the leader key (Patroni documentation, "DCS Failsafe Mode").
ghost use Rattle.std.specs.Prelude.{Some, ◌^◌, ◌≡◌, ◌≤◌};
ghost use Rattle.agent_turn.specs.Turns.{ComesTo, HasLeft, Spent, reached};
ghost use Rattle.agent_turn.specs.Roles.{role_of};
ghost use Rattle.event_book.specs.Watchdogs.{prolonged_to};
ghost use Rattle.failsafe.specs.Holding.{may_hold};
ghost use Rattle.agent_model.specs.StayingPrimary.{awaits_lease, holding_for, is_lease_question};
ghost use Rattle.agent_model.specs.Views.{shown};

use agent_model::{Output, PendingQuestion, Question, Telling};
use agent_turn::{Role, Turn, view_of, word_of};
use failsafe::may_hold;
use pat_base::{MemberId, Ticks};

/// Whether a member in this role may acknowledge a failsafe request.
pub fn may_acknowledge(role: &Role, turn: &Turn) -> bool
    ensures { result ≡ may_hold (shown turn.now.moment (reached (role_of role.now) turn.now)) (awaits_lease turn.now.knows.now.waited) }
{
    let view = view_of(turn.moment, word_of(role), turn.knows, turn.machine);
    may_hold(&view, awaits_lease(turn.knows.waited))
}

/// Whether the agent waits for the leader key or for its renewal.
fn awaits_lease(waited: Option<PendingQuestion>) -> bool
    ensures { result ≡ awaits_lease waited }
{
    match waited {
        None => false,
        Some(waited) => is_lease_question(waited.question),
    }
}

fn is_lease_question(question: Question) -> bool
    ensures { result ≡ is_lease_question question }
{
    matches!(question, Question::Creating | Question::Renewing)
}

/// A member promises not to take the leader key for this span, on the failsafe request of this number. A longer promise stays.
pub fn hold(turn: &mut Turn, from: MemberId, sequence: u64, ttl: Ticks)
    requires turn { HasLeft 1 0 turn.old }
    requires span { ttl.0 ≤ 2 ^ 40 }
    ensures outcome { ComesTo (holding_for turn.old.moment from sequence ttl) turn.old turn.new }
    ensures left { Spent 1 0 turn.old turn.new }
{
    let until = turn.moment + ttl;
    turn.machine.hold = Some(prolonged_to(until, turn.machine.hold));
    turn.out.put(Output::Tell(Telling::HoldTaken {
        until,
        from,
        sequence,
    }));
}

/// The end of a hold until this moment, where there may be one before.
fn prolonged_to(until: Ticks, hold: Option<Ticks>) -> Ticks
    ensures { prolonged_to until hold ≡ Some result }
{
    match hold {
        None => until,
        Some(before) => Ticks(before.0.max(until.0)),
    }
}
