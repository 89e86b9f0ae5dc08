//! How a leader hands over to another member where a failover key asks for that (Patroni's documentation of the REST API,
//! "Switchover and failover endpoints").
ghost use Rattle.std.specs.Prelude.{option_copied, ◌≡◌};
ghost use Rattle.agent_turn.specs.Turns.{ComesTo, HasLeft, Spent, reached};
ghost use Rattle.agent_model.specs.Agents.{Ending, IsWithin, Leader};
ghost use Rattle.pat_base.specs.declared.member_id.TheConstants.{MOST_MEMBERS};
ghost use Rattle.agent_model.specs.HandingOver.{check_answered, checking, checks, clearing, duties, failover_duty, handover_judged, hands_over, is_done, is_near, is_standby_in, is_successor, judged_if_leading, leader_revision, may_follow_in_sync, names_another, position_of, successor_by, whom_answered};
ghost use Rattle.cluster_view.specs.Naming.{is_member};
ghost use Rattle.leader_race.specs.Peers.{member_where};
ghost use Rattle.agent_turn.specs.Roles.{role_of};
ghost use Rattle.agent_model.specs.declared.why.Why.TheVariants as whys;
ghost use Rattle.leader_key.specs.Lease.{writer_revision};

use crate::planning::take_step;
use agent_model::{
    Answers, Inquiry, Knowledge, Noting, Output, PendingQuestion, Question, ServerOrder, SyncRead,
    Who, Why,
};
use agent_turn::{
    Role, Turn, all_answered, answers_until, ask_all, ask_one, is_paused, is_settled,
};
use cluster_view::{Snapshot, candidate_of, is_standby};
use event_book::AgentNote;
use leader_key::Writer;
use leader_race::{earlier, may_fail_over};
use pat_base::{Lsn, MemberId, PeerAnswer};
use pg_model::ServerStatus;
use store_keys::{FailoverKey, OperatorTxn, Txn};

/// What a leader owes its cluster with each renewal: what the failover key asks that its turn read, or without one a step with
/// its synchronous standbys. In a pause these stay as they are.
pub(crate) fn do_duties(writer: Writer, turn: &mut Turn) -> Role
    requires turn { HasLeft MOST_MEMBERS 1 turn.old }
    requires server { IsWithin turn.old.machine.now.server }
    ensures outcome { reached (role_of result) turn.new ≡ duties turn.old.moment (writer_revision writer) (reached (Leader (writer_revision writer)) turn.old) }
    ensures left { Spent MOST_MEMBERS 1 turn.old turn.new }
{
    match turn.knows.turn_failover {
        None => {
            if !is_paused(turn.knows) {
                take_step(writer.revision(), turn);
            }
            Role::Leader(writer)
        }
        Some(failover) => do_failover_duty(failover, writer, turn),
    }
}

/// A failover key that asks no more of this leader is removed, and else it looks for who may lead next; in a pause only where the
/// key names a candidate.
fn do_failover_duty(failover: FailoverKey, writer: Writer, turn: &mut Turn) -> Role
    requires turn { HasLeft MOST_MEMBERS 1 turn.old }
    requires server { IsWithin turn.old.machine.now.server }
    ensures outcome { reached (role_of result) turn.new ≡ failover_duty turn.old.moment (writer_revision writer) failover (reached (Leader (writer_revision writer)) turn.old) }
    ensures left { Spent MOST_MEMBERS 1 turn.old turn.new }
{
    if is_done(turn.knows.who.me, failover) {
        clear(turn);
        return Role::Leader(writer);
    }
    if is_paused(turn.knows) && failover.candidate.is_none() {
        return Role::Leader(writer);
    }
    turn.knows.answers.forget();
    check(failover.candidate, writer, turn)
}

/// Whether a failover key asks no more of this leader: it names another one, or this one as candidate.
fn is_done(me: MemberId, failover: FailoverKey) -> bool
    ensures { result ≡ is_done me failover }
{
    names_another(me, failover.leader) || is_candidate_of(me, failover)
}

fn names_another(me: MemberId, named: Option<MemberId>) -> bool
    ensures { result ≡ names_another me named }
{
    match named {
        None => false,
        Some(member) => member.number != me.number,
    }
}

fn is_candidate_of(me: MemberId, failover: FailoverKey) -> bool
    ensures { result ≡ is_member me failover.candidate }
{
    match failover.candidate {
        None => false,
        Some(member) => member.number == me.number,
    }
}

/// Asks that the failover key be removed, under the leader key that was read last.
fn clear(turn: &mut Turn)
    requires { HasLeft 1 1 turn.old }
    ensures outcome { ComesTo clearing turn.old turn.new }
    ensures left { Spent 1 1 turn.old turn.new }
{
    if let Some(revision) = leader_revision(turn.knows.seen.as_ref()) {
        turn.send(Inquiry::request(Txn::Operators(OperatorTxn::DropFailover { revision })));
    }
}

/// The revision of the leader key by a snapshot, if there is both.
fn leader_revision(seen: Option<&Snapshot>) -> Option<u64>
    ensures { result ≡ leader_revision (option_copied seen.entry) }
{
    let Some(seen) = seen else {
        return None;
    };
    match seen.leader() {
        None => None,
        Some(leader) => Some(leader.revision),
    }
}

/// Asks who may lead in the leader's place: the candidate, or each other member where none is named. Where there is nobody to
/// ask, the handover is judged at once.
fn check(candidate: Option<MemberId>, writer: Writer, turn: &mut Turn) -> Role
    requires turn { HasLeft MOST_MEMBERS 1 turn.old }
    requires server { IsWithin turn.old.machine.now.server }
    ensures outcome { reached (role_of result) turn.new ≡ checks turn.old.moment (writer_revision writer) candidate (reached (Leader (writer_revision writer)) turn.old) }
    ensures left { Spent MOST_MEMBERS 1 turn.old turn.new }
{
    let who = turn.knows.who;
    if whom_answered(&who, candidate, &turn.knows.answers) {
        return judge_handover(writer, turn);
    }
    ask_successors(candidate, turn);
    Role::Leader(writer)
}

/// Whether each that was asked answered.
fn whom_answered(who: &Who, candidate: Option<MemberId>, answers: &Answers) -> bool
    ensures { result ≡ whom_answered who.now candidate answers.now }
{
    match candidate {
        None => all_answered(who, answers),
        Some(_) => is_settled(who, answers, candidate),
    }
}

fn ask_successors(candidate: Option<MemberId>, turn: &mut Turn)
    requires { HasLeft MOST_MEMBERS 1 turn.old }
    ensures outcome { ComesTo (checking turn.old.moment candidate) turn.old turn.new }
    ensures left { Spent MOST_MEMBERS 1 turn.old turn.new }
{
    let who = turn.knows.who;
    turn.knows.sequence += 1;
    match candidate {
        None => ask_all(&who, turn.knows.sequence, turn.out),
        Some(_) => ask_one(&who, turn.knows.sequence, candidate, turn.out),
    }
    turn.knows.waited = Some(PendingQuestion {
        question: Question::FindingCandidate,
        sequence: turn.knows.sequence,
        until: answers_until(turn.moment),
        ttl: turn.knows.settings.ttl_ticks(),
        sent: turn.moment,
    });
}

/// The handover is judged by the answers that there are, of a leader. In another role nothing is waited for any more.
pub fn judge_if_leading(role: Role, turn: &mut Turn) -> Role
    requires turn { HasLeft 2 1 turn.old }
    requires server { IsWithin turn.old.machine.now.server }
    ensures outcome { reached (role_of result) turn.new ≡ judged_if_leading turn.old.moment (role_of role) (reached (role_of role) turn.old) }
    ensures left { Spent 2 1 turn.old turn.new }
{
    match role {
        Role::Leader(writer) => judge_handover(writer, turn),
        role => {
            turn.knows.waited = None;
            role
        }
    }
}

/// An answer that a leader waits for is kept, and the handover judged as soon as each that was asked answered. In another role
/// nothing is waited for any more.
pub fn hear_successor(role: Role, turn: &mut Turn, answer: PeerAnswer) -> Role
    requires turn { HasLeft 2 1 turn.old }
    requires server { IsWithin turn.old.machine.now.server }
    ensures outcome { reached (role_of result) turn.new ≡ check_answered turn.old.moment answer (role_of role) (reached (role_of role) turn.old) }
    ensures left { Spent 2 1 turn.old turn.new }
{
    let Role::Leader(writer) = role else {
        turn.knows.waited = None;
        return role;
    };
    let who = turn.knows.who;
    let candidate = candidate_of(turn.knows.turn_failover);
    turn.knows.answers.keep(answer);
    if whom_answered(&who, candidate, &turn.knows.answers) {
        return judge_handover(writer, turn);
    }
    Role::Leader(writer)
}

/// The handover is judged: the leader hands over, or asks that the failover key be removed where nobody may lead next.
fn judge_handover(writer: Writer, turn: &mut Turn) -> Role
    requires turn { HasLeft 2 1 turn.old }
    requires server { IsWithin turn.old.machine.now.server }
    ensures outcome { reached (role_of result) turn.new ≡ handover_judged turn.old.moment (writer_revision writer) (reached (Leader (writer_revision writer)) turn.old) }
    ensures left { Spent 2 1 turn.old turn.new }
{
    let successor = successor_by(turn.knows.turn_failover, turn.knows, &turn.machine.server);
    turn.knows.waited = None;
    match successor {
        None => {
            clear(turn);
            Role::Leader(writer)
        }
        Some(candidate) => { hand_over(candidate, writer, turn) }
    }
}

/// The member notes that it hands over to this one, and ends its server.
fn hand_over(candidate: MemberId, writer: Writer, turn: &mut Turn) -> Role
    requires turn { HasLeft 2 0 turn.old }
    requires server { IsWithin turn.old.machine.now.server }
    ensures role { role_of result ≡ Ending (writer_revision writer) whys.HandOver }
    ensures outcome { ComesTo (hands_over turn.old.moment (writer_revision writer) candidate) turn.old turn.new }
    ensures left { Spent 2 0 turn.old turn.new }
{
    turn.knows.handed_over = true;
    turn.out.put(Output::Note(Noting::Agent(AgentNote::HandsOver { candidate })));
    turn.machine.server.stop(turn.moment);
    turn.out.put(Output::Server(ServerOrder::ShutDown));
    Role::Ending(writer, Why::HandOver)
}

/// Of the members that may lead next, by what they answered, the one that the script declares first.
fn successor_by(
    failover: Option<FailoverKey>,
    knows: &Knowledge,
    server: &ServerStatus,
) -> Option<MemberId>
    ensures { result ≡ successor_by failover knows.now server.now }
{
    let Some(failover) = failover else {
        return None;
    };
    let mut first = None;
    for answer in knows.answers.all() {
        first = earlier(first, successor_in(knows, server, failover, answer));
    }
    first
}

/// The member that answered, where it may lead next.
fn successor_in(
    knows: &Knowledge,
    server: &ServerStatus,
    failover: FailoverKey,
    answer: &PeerAnswer,
) -> Option<MemberId>
    ensures { result ≡ member_where (is_successor knows.now server.now failover answer.now) answer.now.member }
{
    if is_successor(knows, server, failover, answer) {
        Some(answer.member)
    } else {
        None
    }
}

/// Whether a member that answers so may lead next: it accepts no writes, may fail over, and its log ends near enough to the own
/// one.
fn is_successor(
    knows: &Knowledge,
    server: &ServerStatus,
    failover: FailoverKey,
    answer: &PeerAnswer,
) -> bool
    ensures { result ≡ is_successor knows.now server.now failover answer.now }
{
    !answer.writes
        && may_fail_over(&answer.tags)
        && is_near(
            knows.turn_settings.maximum_lag_on_failover,
            server.end,
            answer.end,
        )
        && may_follow_in_sync(knows, failover, answer.member)
}

/// Whether a log is there and ends at most so many bytes behind another.
fn is_near(most: u64, own: Option<Lsn>, end: Option<Lsn>) -> bool
    ensures { result ≡ is_near most own end }
{
    match end {
        None => false,
        Some(end) => position_of(own).saturating_sub(end.position) <= most,
    }
}

fn position_of(end: Option<Lsn>) -> u64
    ensures { result ≡ position_of end }
{
    match end {
        None => 0,
        Some(end) => end.position,
    }
}

/// Where the synchronous mode is active, a switchover goes to a standby alone: another may lack an acknowledged commit.
fn may_follow_in_sync(knows: &Knowledge, failover: FailoverKey, member: MemberId) -> bool
    ensures { result ≡ may_follow_in_sync knows.now failover member }
{
    if knows.turn_settings.synchronous_mode && failover.leader.is_some() {
        is_standby_in(knows.turn_sync, member)
    } else {
        true
    }
}

fn is_standby_in(read: Option<SyncRead>, member: MemberId) -> bool
    ensures { result ≡ is_standby_in read member }
{
    match read {
        None => true,
        Some(read) => is_standby(member, read.key),
    }
}
