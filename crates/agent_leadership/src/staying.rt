//! How a leader goes on without the key store by the word of all other members (Patroni documentation, "DCS Failsafe Mode").
ghost use Rattle.std.specs.Prelude.{◌+◌, ◌≡◌, ◌≤◌};
ghost use Rattle.pat_base.specs.declared.member_id.TheConstants.{MOST_MEMBERS};
ghost use Rattle.leader_key.specs.Lease.{writer_revision};
ghost use Rattle.leader_key.specs.Watchdog.{IsLeaseSpan};
ghost use Rattle.agent_turn.specs.Turns.{ComesTo, HasLeft, Spent, reached};
ghost use Rattle.agent_turn.specs.Roles.{role_of};
ghost use Rattle.agent_model.specs.Agents.{IsWithin, Leader};
ghost use Rattle.agent_model.specs.StayingPrimary.{accepted_failsafe, acknowledged_to, asking_to_stay, awaits_failsafe, failsafe_answered, fed_by_failsafe, is_staying, may_stay, others_known, requesting_all, requesting_one, seeks_to_stay, stays, stays_by, unacknowledged};
ghost use Rattle.agent_model.specs.Wake.{leader_unanswered};

use agent_model::{
    Feeding, Inquiry, Knowledge, Noting, Outgoing, Output, PendingQuestion, Question, Target,
};
use agent_turn::{
    Outputs, Role, Turn, answers_until, comes_late, deadline_of, is_armable, is_paused,
};
use event_book::Reason;
use failsafe::{Ask, without_member};
use leader_key::Writer;
use pat_base::{MOST_MEMBERS, MemberId, MemberSet, Ticks};

/// A leader's read or renewal isn't answered in time: it ends its server, since another may have its key soon. With failsafe mode it
/// asks the other members first whether it may stay primary.
pub fn leader_unanswered(writer: Writer, turn: &mut Turn) -> Role
    requires turn { HasLeft MOST_MEMBERS 1 turn.old }
    requires server { IsWithin turn.old.machine.now.server }
    ensures outcome { reached (role_of result) turn.new ≡ leader_unanswered turn.old.moment (writer_revision writer) (reached (Leader (writer_revision writer)) turn.old) }
    ensures left { Spent MOST_MEMBERS 1 turn.old turn.new }
{
    if !may_stay(turn.knows) {
        return turn.lose(writer, Reason::StoreOutOfReach);
    }
    let members = others_known(turn.knows);
    seek_to_stay(&writer, turn, members);
    Role::Leader(writer)
}

/// Whether failsafe mode is on, and a grant of the leader key told of a failsafe key.
fn may_stay(knows: &Knowledge) -> bool
    ensures { result ≡ may_stay knows.now }
{
    knows.settings.failsafe_mode && knows.confirmed
}

/// The other members that failsafe keys listed.
fn others_known(knows: &Knowledge) -> MemberSet
    ensures { result ≡ others_known knows.now }
{
    without_member(knows.known, knows.who.me)
}

/// Asks these members whether it may stay primary. With nobody to ask it stays so at once.
fn seek_to_stay(writer: &Writer, turn: &mut Turn, members: MemberSet)
    requires { HasLeft MOST_MEMBERS 1 turn.old }
    ensures outcome { ComesTo (seeks_to_stay turn.old.moment members) turn.old turn.new }
    ensures left { Spent MOST_MEMBERS 1 turn.old turn.new }
{
    if !members.is_empty() {
        return ask_to_stay(turn, members);
    }
    turn.knows.failsafe = Ask::new(members, turn.moment);
    let ttl = turn.knows.settings.ttl_ticks();
    let sequence = turn.knows.sequence;
    let since = turn.moment;
    stay(writer, turn, ttl, sequence, since);
}

/// Asks these members whether it may stay primary for the span of its leases, all under one number, and waits for the answers.
fn ask_to_stay(turn: &mut Turn, members: MemberSet)
    requires { HasLeft MOST_MEMBERS 1 turn.old }
    ensures outcome { ComesTo (asking_to_stay turn.old.moment members) turn.old turn.new }
    ensures left { Spent MOST_MEMBERS 1 turn.old turn.new }
{
    let ttl = turn.knows.settings.ttl_ticks();
    turn.knows.sequence += 1;
    turn.knows.failsafe = Ask::new(members, turn.moment);
    request_all(members, turn.knows.sequence, ttl, turn.out);
    turn.knows.waited = Some(PendingQuestion {
        question: Question::StayingPrimary,
        sequence: turn.knows.sequence,
        until: answers_until(turn.moment),
        ttl,
        sent: turn.moment,
    });
}

/// The failsafe requests to all of these members, in the order in which the script declares them.
fn request_all(members: MemberSet, sequence: u64, ttl: Ticks, out: &mut Outputs)
    requires { MOST_MEMBERS ≤ out.old.spare }
    ensures out { out.new.outputs ≡ requesting_all members sequence ttl out.old.outputs }
    ensures room { out.old.spare ≤ out.new.spare + MOST_MEMBERS }
{
    for number in 0..MOST_MEMBERS as u8 {
        request_one(members, sequence, ttl, MemberId::new(number), out);
    }
}

/// The failsafe request to this member, where it is one of these.
fn request_one(
    members: MemberSet,
    sequence: u64,
    ttl: Ticks,
    member: Option<MemberId>,
    out: &mut Outputs,
)
    requires { 1 ≤ out.old.spare }
    ensures out { out.new.outputs ≡ requesting_one members sequence ttl member out.old.outputs }
    ensures room { out.old.spare ≤ out.new.spare + 1 }
{
    if let Some(member) = member {
        if members.contains(member) {
            out.put(Output::Message(Outgoing::Send {
                to: Target::Member(member),
                sequence,
                body: Inquiry::failsafe_request(ttl),
            }));
        }
    }
}

/// The member stays primary: its watchdog is fed for this span, by the acknowledgements of the request of this number, of which the
/// first is of that moment.
fn stay(writer: &Writer, turn: &mut Turn, ttl: Ticks, sequence: u64, since: Ticks)
    requires turn { HasLeft 2 0 turn.old }
    requires span { IsLeaseSpan ttl.0 }
    ensures outcome { ComesTo (stays turn.old.moment ttl sequence since) turn.old turn.new }
    ensures left { Spent 2 0 turn.old turn.new }
{
    let armable = is_armable(&turn.machine.watchdog);
    turn.machine.by_failsafe = armable || turn.machine.by_failsafe;
    writer.feed_by_failsafe(&mut turn.machine.watchdog, turn.moment, ttl);
    let deadline = deadline_of(&turn.machine.watchdog);
    let members = turn.knows.failsafe.members;
    note_fed(turn.out, deadline, members, sequence, since);
    turn.out.put(Output::Note(Noting::StaysByFailsafe));
    turn.knows.waited = None;
}

/// Tells the watchdog's new deadline, if it got one: by whose acknowledgements, of which request, and since when.
fn note_fed(
    out: &mut Outputs,
    deadline: Option<Ticks>,
    members: MemberSet,
    sequence: u64,
    since: Ticks,
)
    requires { 1 ≤ out.old.spare }
    ensures out { out.new.outputs ≡ fed_by_failsafe deadline members sequence since out.old.outputs }
    ensures room { out.old.spare ≤ out.new.spare + 1 }
{
    if let Some(until) = deadline {
        out.put(Output::Watchdog(Feeding::FedByFailsafe {
            until,
            members,
            sequence,
            since,
        }));
    }
}

/// One that was asked doesn't acknowledge: the leader ends its server, but in a pause. In another role nothing is waited for any
/// more.
pub fn unacknowledged(role: Role, turn: &mut Turn) -> Role
    requires turn { HasLeft 1 0 turn.old }
    requires server { IsWithin turn.old.machine.now.server }
    ensures outcome { reached (role_of result) turn.new ≡ unacknowledged turn.old.moment (reached (role_of role) turn.old) }
    ensures left { Spent 1 0 turn.old turn.new }
{
    turn.knows.waited = None;
    if is_paused(turn.knows) {
        return role;
    }
    match role {
        Role::Leader(writer) => turn.lose(writer, Reason::FailsafeNotAcknowledged),
        role => role,
    }
}

/// Another member answers a failsafe request by a message that it sent at this moment: what is waited for is used, and any other
/// dropped.
pub fn failsafe_answered(
    role: Role,
    turn: &mut Turn,
    from: MemberId,
    sequence: u64,
    accepted: bool,
    sent: Ticks,
) -> Role
    requires turn { HasLeft 2 0 turn.old }
    requires server { IsWithin turn.old.machine.now.server }
    ensures outcome { reached (role_of result) turn.new ≡ failsafe_answered turn.old.moment from sequence accepted sent (reached (role_of role) turn.old) }
    ensures left { Spent 2 0 turn.old turn.new }
{
    let Some(waited) = turn.knows.waited else {
        return role;
    };
    if awaits_failsafe(waited, sequence) {
        accept_failsafe(waited, role, turn, from, accepted, sent)
    } else {
        role
    }
}

/// The answers to the failsafe request of this number are waited for.
fn awaits_failsafe(waited: PendingQuestion, sequence: u64) -> bool
    ensures { result ≡ awaits_failsafe waited sequence }
{
    is_staying(waited.question) && waited.sequence == sequence
}

fn is_staying(question: Question) -> bool
    ensures { result ≡ is_staying question }
{
    matches!(question, Question::StayingPrimary)
}

/// An answer that is waited for counts for a leader; one refusal is enough.
fn accept_failsafe(
    waited: PendingQuestion,
    role: Role,
    turn: &mut Turn,
    from: MemberId,
    accepted: bool,
    sent: Ticks,
) -> Role
    requires turn { HasLeft 2 0 turn.old }
    requires span { IsLeaseSpan waited.ttl.0 }
    requires server { IsWithin turn.old.machine.now.server }
    ensures outcome { reached (role_of result) turn.new ≡ accepted_failsafe turn.old.moment waited from accepted sent (role_of role) (reached (role_of role) turn.old) }
    ensures left { Spent 2 0 turn.old turn.new }
{
    match role {
        Role::Leader(writer) => {
            if !accepted {
                return unacknowledged(Role::Leader(writer), turn);
            }
            acknowledge(waited, &writer, turn, from, sent);
            Role::Leader(writer)
        }
        role => {
            turn.knows.waited = None;
            role
        }
    }
}

/// A leader hears an acknowledgement, and stays primary once it has heard all.
fn acknowledge(
    waited: PendingQuestion,
    writer: &Writer,
    turn: &mut Turn,
    from: MemberId,
    sent: Ticks,
)
    requires turn { HasLeft 2 0 turn.old }
    requires span { IsLeaseSpan waited.ttl.0 }
    ensures outcome { ComesTo (acknowledged_to turn.old.moment waited from sent) turn.old turn.new }
    ensures left { Spent 2 0 turn.old turn.new }
{
    turn.knows.failsafe.heard(from, true, sent);
    if let Some(since) = turn.knows.failsafe.all() {
        stay_by(waited, writer, turn, since);
    }
}

/// All acknowledged, the first of them at this moment: the leader stays primary, unless the last answer comes too late outside a pause.
fn stay_by(waited: PendingQuestion, writer: &Writer, turn: &mut Turn, since: Ticks)
    requires turn { HasLeft 2 0 turn.old }
    requires span { IsLeaseSpan waited.ttl.0 }
    ensures outcome { ComesTo (stays_by turn.old.moment waited since) turn.old turn.new }
    ensures left { Spent 2 0 turn.old turn.new }
{
    if !is_paused(turn.knows) && comes_late(turn.moment, waited, turn.machine) {
        return turn.wait_no_more();
    }
    stay(writer, turn, waited.ttl, waited.sequence, since);
}
