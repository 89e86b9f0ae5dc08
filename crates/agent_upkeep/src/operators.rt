//! What an agent does for operators, and what it answers them (Patroni's documentation of the REST API).
ghost use Rattle.std.specs.Prelude.{ℕ, option_copied, ◌^◌, ◌≡◌, ◌≤◌};
ghost use Rattle.agent_turn.specs.Turns.{ComesTo, HasLeft, Spent, reached};
ghost use Rattle.agent_model.specs.Agents.{IsWithin, RoleFacts};
ghost use Rattle.agent_model.specs.Operators.{answering, asked_to_hold, config_revision, done_by, done_text, failed_by, failed_text, failover_result, given_up, grants_operator, holder_if, holder_in, is_asked_for, is_same_member, late_answer, looked, name_in, operated, operates, operating, operator_granted, operator_refused, operator_until, refusal_of, restarting, result_as, revision_of_entry, telling, wiping};
ghost use Rattle.agent_model.specs.Peers.{asked};
ghost use Rattle.event_book.specs.declared.message.Body.TheVariants as bodies;
ghost use Rattle.pat_base.specs.Moments.{latest};
ghost use Rattle.agent_turn.specs.Roles.{role_of};
ghost use Rattle.agent_model.specs.declared.operating.Told.TheVariants as tolds;
ghost use Rattle.agent_model.specs.Acting.{waiting};

use crate::holding::{hold, may_acknowledge};
use crate::waiting::{awaits_number, awaits_read};
use agent_model::{Inquiry, Knowledge, Operating, Operation, Output, ServerOrder, Telling, Told};
use agent_turn::{Role, Turn, inform, is_active, is_write_of};
use cluster_view::Snapshot;
use lease_store::Granted;
use operator_answers::{CONFLICT, INTERNAL_SERVER_ERROR, OK, SERVICE_UNAVAILABLE, Text};
use pat_base::{Host, MemberId, Name, State, Ticks};
use store_keys::{
    Config, FailoverKey, FailoverKind, Key, KeyEntry, OperatorRequest, OperatorTxn, Txn,
};

/// For so many ticks an operator waits for what comes of a switchover or a failover.
const MOST_OPERATOR_TICKS: u64 = 600;

/// The number of a failsafe request that no message brings: those of messages are counted from 1.
const UNNUMBERED: u64 = 0;

/// A request of this number, which passed its checks.
pub fn operate(role: &Role, turn: &mut Turn, request: u64, asked: OperatorRequest)
    requires turn { HasLeft 2 1 turn.old }
    requires server { IsWithin turn.old.machine.now.server }
    ensures outcome { reached (role_of role.now) turn.new ≡ operated turn.old.moment request asked (reached (role_of role.now) turn.old) }
    ensures left { Spent 2 1 turn.old turn.new }
{
    match asked {
        OperatorRequest::Failover { kind, failover } => {
            let txn = Txn::Operators(OperatorTxn::SetFailover {
                failover,
                ttl: turn.knows.settings.ttl_ticks(),
            });
            owe(request, Operation::FailingOver(kind), txn, turn);
        }
        OperatorRequest::Configuration(config) => {
            let txn = Txn::Operators(OperatorTxn::SetConfig {
                revision: config_revision(turn.knows.seen.as_ref()),
                config,
            });
            owe(request, Operation::Configuring, txn, turn);
        }
        OperatorRequest::Restart => {
            restart(turn);
            tell(request, text(OK, Text::Restarted), turn);
        }
        OperatorRequest::Reinit => {
            wipe(turn);
            tell(request, text(OK, Text::ReinitializeStarted), turn);
        }
        OperatorRequest::Hold { from: _, ttl } => {
            let told = acknowledge(role, turn, Ticks(u64::from(ttl)));
            tell(request, told, turn);
        }
    }
}

/// Another member asks by the REST interface to stay primary for this span: this one holds, where it may, of its own accord, as no message
/// has it do so; and what it answers is the result.
fn acknowledge(role: &Role, turn: &mut Turn, ttl: Ticks) -> Told
    requires turn { HasLeft 1 0 turn.old }
    requires span { ttl.0 ≤ 2 ^ 40 }
    ensures outcome { (request : ℕ) → telling request result (reached (role_of role.now) turn.new) ≡ asked_to_hold turn.old.moment request ttl (reached (role_of role.now) turn.old) }
    ensures left { Spent 1 0 turn.old turn.new }
{
    if may_acknowledge(role, turn) {
        let me = turn.knows.who.me;
        hold(turn, me, UNNUMBERED, ttl);
        text(OK, Text::Accepted)
    } else {
        text(INTERNAL_SERVER_ERROR, Text::Refused)
    }
}

/// Asks the key store for what the operator wants, and owes the answer.
fn owe(request: u64, operation: Operation, txn: Txn, turn: &mut Turn)
    requires { HasLeft 1 1 turn.old }
    ensures outcome { ComesTo (operating turn.old.moment request operation (bodies.Request txn)) turn.old turn.new }
    ensures left { Spent 1 1 turn.old turn.new }
{
    turn.send(Inquiry::request(txn));
    turn.knows.operating = Some(Operating {
        request,
        operation,
        sequence: turn.knows.sequence,
        since: turn.moment,
        leader: holder_if(turn.knows.seen.as_ref()),
    });
}

/// The revision of the configuration that was read last; 0 where none was.
fn config_revision(seen: Option<&Snapshot>) -> u64
    ensures { result ≡ config_revision (option_copied seen.entry) }
{
    match seen {
        None => 0,
        Some(seen) => revision_of_entry(seen.entry(Key::Config)),
    }
}

fn revision_of_entry(entry: Option<&KeyEntry>) -> u64
    ensures { result ≡ revision_of_entry (option_copied entry.entry) }
{
    match entry {
        None => 0,
        Some(found) => found.revision,
    }
}

/// The server starts again in its role.
fn restart(turn: &mut Turn)
    requires turn { HasLeft 1 0 turn.old }
    requires server { IsWithin turn.old.machine.now.server }
    ensures outcome { ComesTo (restarting turn.old.moment) turn.old turn.new }
    ensures left { Spent 1 0 turn.old turn.new }
{
    let as_primary = matches!(turn.machine.server.state, State::Primary);
    turn.machine.server.restart(turn.moment);
    turn.knows.begun = Some(turn.moment);
    turn.out
        .put(Output::Server(ServerOrder::Restart { as_primary }));
}

/// The server is wiped, and waits for a copy.
fn wipe(turn: &mut Turn)
    requires { HasLeft 1 0 turn.old }
    ensures outcome { ComesTo wiping turn.old turn.new }
    ensures left { Spent 1 0 turn.old turn.new }
{
    turn.machine.server.wipe();
    turn.out.put(Output::Server(ServerOrder::Wipe));
}

/// An answer of these words with this status.
fn text(status: u16, text: Text) -> Told
    ensures { result ≡ tolds.Text status text }
{
    Told::Text { status, text }
}

/// Answers the operator's request of this number.
fn tell(request: u64, told: Told, turn: &mut Turn)
    requires { HasLeft 1 0 turn.old }
    ensures outcome { ComesTo (telling request told) turn.old turn.new }
    ensures left { Spent 1 0 turn.old turn.new }
{
    turn.out.put(Output::Tell(Telling::Told { request, told }));
}

/// Answers the request that waits, which waits no more.
fn answer(request: u64, told: Told, turn: &mut Turn)
    requires { HasLeft 1 0 turn.old }
    ensures outcome { ComesTo (answering request told) turn.old turn.new }
    ensures left { Spent 1 0 turn.old turn.new }
{
    turn.knows.operating = None;
    tell(request, told, turn);
}

/// A read is looked at for a request that waits, before anything else.
pub fn look(role: &Role, turn: &mut Turn, sequence: u64, snapshot: &Snapshot)
    requires { HasLeft 1 0 turn.old }
    ensures outcome { reached (role_of role.now) turn.new ≡ looked sequence snapshot.now (reached (role_of role.now) turn.old) }
    ensures left { Spent 1 0 turn.old turn.new }
{
    if !awaits_read(turn.knows.waited, sequence) || !is_active(role) {
        return;
    }
    if let Some(waiting) = turn.knows.operating {
        if let Some(told) = result_as(waiting.operation, waiting.leader, snapshot) {
            answer(waiting.request, told, turn);
        }
    }
}

/// What a snapshot tells of what was asked for, before which this one led.
fn result_as(operation: Operation, was: Option<MemberId>, snapshot: &Snapshot) -> Option<Told>
    ensures { result ≡ result_as operation was snapshot.now }
{
    match operation {
        Operation::FailingOver(kind) => failover_result(kind, was, snapshot),
        Operation::Configuring => None,
    }
}

fn failover_result(kind: FailoverKind, was: Option<MemberId>, snapshot: &Snapshot) -> Option<Told>
    ensures { result ≡ failover_result kind was snapshot.now }
{
    let leader = holder_in(snapshot);
    if is_same_member(was, leader) {
        failed_by(kind, snapshot.failover())
    } else {
        done_by(kind, name_in(snapshot.members(), leader))
    }
}

/// Who leads by a snapshot, if anybody does.
fn holder_in(snapshot: &Snapshot) -> Option<MemberId>
    ensures { result ≡ holder_in snapshot.now }
{
    match snapshot.leader() {
        None => None,
        Some(leader) => Some(leader.holder),
    }
}

fn holder_if(seen: Option<&Snapshot>) -> Option<MemberId>
    ensures { result ≡ holder_if (option_copied seen.entry) }
{
    match seen {
        None => None,
        Some(seen) => holder_in(seen),
    }
}

/// Whether two name the same member, or nobody.
fn is_same_member(member: Option<MemberId>, other: Option<MemberId>) -> bool
    ensures { result ≡ is_same_member member other }
{
    match (member, other) {
        (None, other) => other.is_none(),
        (Some(_), None) => false,
        (Some(member), Some(other)) => other.number == member.number,
    }
}

/// The name of the member of this number, where the cluster has one.
fn name_in(members: &[(Name, Host)], member: Option<MemberId>) -> Option<Name>
    ensures { result ≡ name_in members.now member }
{
    let member = member?;
    match members.get(usize::from(member.number)) {
        None => None,
        Some(known) => Some(known.0),
    }
}

/// Nobody is to lead in the leader's place any more.
fn failed_by(kind: FailoverKind, failover: Option<FailoverKey>) -> Option<Told>
    ensures { result ≡ failed_by kind failover }
{
    match failover {
        None => Some(text(SERVICE_UNAVAILABLE, failed_text(kind))),
        Some(_) => None,
    }
}

/// Another member leads, of this name.
fn done_by(kind: FailoverKind, name: Option<Name>) -> Option<Told>
    ensures { result ≡ done_by kind name }
{
    match name {
        None => None,
        Some(name) => Some(text(OK, done_text(kind, name))),
    }
}

fn done_text(kind: FailoverKind, name: Name) -> Text
    ensures { result ≡ done_text kind name }
{
    match kind {
        FailoverKind::Switchover => Text::SwitchedOver(name),
        FailoverKind::Failover => Text::FailedOver(name),
    }
}

fn failed_text(kind: FailoverKind) -> Text
    ensures { result ≡ failed_text kind }
{
    match kind {
        FailoverKind::Switchover => Text::SwitchoverFailed,
        FailoverKind::Failover => Text::FailoverFailed,
    }
}

/// A request whose time is over is answered so.
pub fn give_up(turn: &mut Turn)
    requires { HasLeft 1 0 turn.old }
    ensures outcome { (role : RoleFacts) → reached role turn.new ≡ given_up turn.old.moment (reached role turn.old) }
    ensures machine { turn.new.machine.now ≡ turn.old.machine.now }
    ensures left { Spent 1 0 turn.old turn.new }
{
    let Some(waiting) = turn.knows.operating else {
        return;
    };
    if operator_until(&turn.knows.settings, waiting.operation, waiting.since) <= turn.moment {
        answer(waiting.request, late_answer(waiting.operation), turn);
    }
}

/// Until when an operator waits at most that asked for this at this moment.
fn operator_until(settings: &Config, operation: Operation, since: Ticks) -> Ticks
    requires { since.0 ≤ latest }
    ensures { result ≡ operator_until settings.now operation since }
{
    match operation {
        Operation::FailingOver(_) => Ticks(since.0 + MOST_OPERATOR_TICKS),
        Operation::Configuring => since + settings.retry_timeout_ticks(),
    }
}

fn late_answer(operation: Operation) -> Told
    ensures { result ≡ late_answer operation }
{
    match operation {
        Operation::FailingOver(_) => text(SERVICE_UNAVAILABLE, Text::NoResultInTime),
        Operation::Configuring => text(SERVICE_UNAVAILABLE, Text::ConfigurationNotWritten),
    }
}

/// The answer of this number is waited for by an operator, and not by the agent itself.
pub fn operates(knows: &Knowledge, sequence: u64) -> bool
    ensures { result ≡ operates knows.now sequence }
{
    is_asked_for(knows.operating, sequence) && !awaits_number(knows.waited, sequence)
}

/// The request that waits asked this question of the key store.
fn is_asked_for(waiting: Option<Operating>, sequence: u64) -> bool
    ensures { result ≡ is_asked_for waiting sequence }
{
    match waiting {
        None => false,
        Some(waiting) => waiting.sequence == sequence,
    }
}

/// The grant is that of what an operator wants.
pub fn grants_operator(sequence: u64, grant: &Granted, knows: &Knowledge) -> bool
    ensures { result ≡ grants_operator sequence grant.now knows.now }
{
    operates(knows, sequence) && is_write_of(knows.who.me, grant)
}

/// The key store granted what an operator wants: its snapshot is the newest. Another leader is to come of a failover key first.
pub fn operator_granted(turn: &mut Turn, snapshot: Snapshot)
    requires { HasLeft 1 0 turn.old }
    ensures outcome { (role : RoleFacts) → reached role turn.new ≡ operator_granted snapshot turn.old.knows.now.operating (reached role turn.old) }
    ensures left { Spent 1 0 turn.old turn.new }
{
    let Some(waiting) = turn.knows.operating else {
        return;
    };
    let waited = turn.knows.waited;
    inform(turn.knows, snapshot);
    turn.knows.waited = waited;
    match waiting.operation {
        Operation::FailingOver(_) => {}
        Operation::Configuring => answer(waiting.request, Told::Written, turn),
    }
}

/// The key store refused what an operator wants.
pub fn operator_refused(turn: &mut Turn)
    requires { HasLeft 1 0 turn.old }
    ensures outcome { (role : RoleFacts) → reached role turn.new ≡ operator_refused turn.old.knows.now.operating (reached role turn.old) }
    ensures left { Spent 1 0 turn.old turn.new }
{
    let Some(waiting) = turn.knows.operating else {
        return;
    };
    answer(waiting.request, refusal_of(waiting.operation), turn);
}

fn refusal_of(operation: Operation) -> Told
    ensures { result ≡ refusal_of operation }
{
    match operation {
        Operation::FailingOver(_) => text(SERVICE_UNAVAILABLE, Text::AnotherUnderWay),
        Operation::Configuring => text(CONFLICT, Text::ConfigurationNotWritten),
    }
}
