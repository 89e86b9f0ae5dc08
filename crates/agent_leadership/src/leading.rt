//! What an agent does with a lease that it gets.
ghost use Rattle.std.specs.Prelude.{true, ◌≡◌};
ghost use Rattle.agent_model.specs.Agents.{Follower, IsWithin, Leader, Unleased};
ghost use Rattle.agent_turn.specs.Turns.{HasLeft, Spent, reached};
ghost use Rattle.leader_key.specs.Watchdog.{IsLeaseSpan};
ghost use Rattle.pat_base.specs.declared.member_id.TheConstants.{MOST_MEMBERS};
ghost use Rattle.agent_model.specs.Decisions.{can_begin, cannot_arm, granted_in_pause, has_lasted, is_start_too_long, judges_start, leader_kept, leader_renewed, may_start_again, may_take, since_crash, unleased_renewed, unleased_unarmed, takes_key, takes_key_in_pause, takes_late};
ghost use Rattle.leader_key.specs.Lease.{lease_revision, writer_revision};
ghost use Rattle.agent_model.specs.Answers.{most_grant_outputs};
ghost use Rattle.agent_turn.specs.Roles.{role_of};

use crate::claiming::begin_or_claim;
use crate::handing_over::do_duties;
use agent_model::{Knowledge, Machine, Noting, Output, Why};
use agent_turn::{Role, Turn, is_hold_active, is_wanted, may_lead_in_sync};
use event_book::{AgentNote, Reason};
use leader_key::{Lease, Writer};
use lease_store::Granted;
use pat_base::{State, Ticks};
use pg_model::ServerStatus;

/// The lease of a leader is renewed: its watchdog is fed.
pub fn leader_renewed(writer: Writer, turn: &mut Turn, ttl: Ticks, grant: Granted) -> Role
    requires turn { HasLeft most_grant_outputs 1 turn.old }
    requires span { IsLeaseSpan ttl.0 }
    requires leased { grant.leased ≡ true }
    requires server { IsWithin turn.old.machine.now.server }
    ensures outcome { reached (role_of result) turn.new ≡ leader_renewed turn.old.moment ttl grant.revision (reached (Leader (writer_revision writer)) turn.old) }
    ensures left { Spent most_grant_outputs 1 turn.old turn.new }
{
    let writer = turn.feed(writer, ttl, grant);
    judge_start(writer, turn)
}

/// The lease of a leader is renewed, and it hears that too late: its watchdog keeps its deadline.
pub fn leader_kept(writer: Writer, turn: &mut Turn, grant: Granted) -> Role
    requires turn { HasLeft MOST_MEMBERS 1 turn.old }
    requires leased { grant.leased ≡ true }
    requires server { IsWithin turn.old.machine.now.server }
    ensures outcome { reached (role_of result) turn.new ≡ leader_kept turn.old.moment grant.revision (reached (Leader (writer_revision writer)) turn.old) }
    ensures left { Spent MOST_MEMBERS 1 turn.old turn.new }
{
    judge_start(writer.kept(grant), turn)
}

/// Where the start of a primary takes longer than it may, another member is to lead; else the leader does what it owes its
/// cluster.
fn judge_start(writer: Writer, turn: &mut Turn) -> Role
    requires turn { HasLeft MOST_MEMBERS 1 turn.old }
    requires server { IsWithin turn.old.machine.now.server }
    ensures outcome { reached (role_of result) turn.new ≡ judges_start turn.old.moment (writer_revision writer) (reached (Leader (writer_revision writer)) turn.old) }
    ensures left { Spent MOST_MEMBERS 1 turn.old turn.new }
{
    if is_start_too_long(turn.moment, turn.knows, turn.machine.server.state) {
        turn.end_server(Reason::StartTooLong);
        Role::Ending(writer, Why::HandOver)
    } else {
        do_duties(writer, turn)
    }
}

fn is_start_too_long(now: Ticks, knows: &Knowledge, state: State) -> bool
    ensures { result ≡ is_start_too_long now knows.now state }
{
    match state {
        State::Starting { .. } => has_lasted(
            now,
            knows.settings.primary_start_timeout_ticks(),
            knows.begun,
        ),
        _ => false,
    }
}

/// So many ticks have passed since this incarnation began the server, or took it over.
fn has_lasted(now: Ticks, span: Ticks, begun: Option<Ticks>) -> bool
    ensures { result ≡ has_lasted now span.0 begun }
{
    match begun {
        None => false,
        Some(begun) => span.0 <= now.0.saturating_sub(begun.0),
    }
}

/// An agent whose server is live without a lease gets one: it leads, once its watchdog is armed.
pub fn unleased_renewed(lease: Lease, turn: &mut Turn, ttl: Ticks) -> Role
    requires turn { HasLeft 1 0 turn.old }
    requires span { IsLeaseSpan ttl.0 }
    requires server { IsWithin turn.old.machine.now.server }
    ensures outcome { reached (role_of result) turn.new ≡ unleased_renewed turn.old.moment ttl (lease_revision lease) (reached Unleased turn.old) }
    ensures left { Spent 1 0 turn.old turn.new }
{
    match turn.arm(lease, ttl) {
        Ok(armed) => {
            turn.knows.begun = Some(turn.moment);
            turn.knows.noted = turn.machine.server.end;
            Role::Leader(Writer::begin(armed))
        }
        Err(lease) => unleased_unarmed(lease, turn),
    }
}

/// An agent whose server is live without a lease can't arm its watchdog on the one that it gets: it ends the server.
pub fn unleased_unarmed(lease: Lease, turn: &mut Turn) -> Role
    requires turn { HasLeft 1 0 turn.old }
    requires server { IsWithin turn.old.machine.now.server }
    ensures outcome { reached (role_of result) turn.new ≡ unleased_unarmed turn.old.moment (reached Unleased turn.old) }
    ensures left { Spent 1 0 turn.old turn.new }
{
    turn.end_server(Reason::WatchdogNotArmed);
    lease.lost();
    Role::Unleased
}

/// An agent that isn't leading gets a lease.
pub fn take_key(lease: Lease, turn: &mut Turn, ttl: Ticks) -> Role
    requires turn { HasLeft 3 1 turn.old }
    requires span { IsLeaseSpan ttl.0 }
    requires server { IsWithin turn.old.machine.now.server }
    ensures outcome { reached (role_of result) turn.new ≡ takes_key turn.old.moment ttl (lease_revision lease) (reached Follower turn.old) }
    ensures left { Spent 3 1 turn.old turn.new }
{
    if !may_take(turn.moment, turn.knows, turn.machine) {
        turn.release(lease);
        return Role::Follower;
    }
    match turn.arm(lease, ttl) {
        Ok(armed) => begin_or_claim(armed, turn),
        Err(lease) => cannot_arm(lease, turn),
    }
}

/// Nobody begins whose watchdog can't be armed: the lease is given back.
fn cannot_arm(lease: Lease, turn: &mut Turn) -> Role
    requires { HasLeft 2 1 turn.old }
    ensures outcome { reached (role_of result) turn.new ≡ cannot_arm (lease_revision lease) (reached Follower turn.old) }
    ensures left { Spent 2 1 turn.old turn.new }
{
    turn.out
        .put(Output::Note(Noting::Agent(AgentNote::CannotArm)));
    turn.release(lease);
    Role::Follower
}

/// An agent that isn't leading gets a lease, and hears of it too late.
pub fn take_late(lease: Lease, turn: &mut Turn) -> Role
    requires { HasLeft 2 1 turn.old }
    ensures outcome { reached (role_of result) turn.new ≡ takes_late turn.old.moment (lease_revision lease) (reached Follower turn.old) }
    ensures left { Spent 2 1 turn.old turn.new }
{
    if may_take(turn.moment, turn.knows, turn.machine) {
        return cannot_arm(lease, turn);
    }
    turn.release(lease);
    Role::Follower
}

/// The lease of a leader is renewed in a pause: its watchdog rests, and its start may last as long as it does.
pub fn leader_renewed_in_pause(
    writer: Writer,
    turn: &mut Turn,
    renews: bool,
    grant: Granted,
) -> Role
    requires turn { HasLeft most_grant_outputs 1 turn.old }
    requires leased { grant.leased ≡ true }
    requires server { IsWithin turn.old.machine.now.server }
    ensures outcome { reached (role_of result) turn.new ≡ granted_in_pause turn.old.moment renews grant.revision (Leader (writer_revision writer)) (reached (Leader (writer_revision writer)) turn.old) }
    ensures left { Spent most_grant_outputs 1 turn.old turn.new }
{
    let writer = turn.renew_without_watchdog(writer, renews, grant);
    do_duties(writer, turn)
}

/// An agent whose server is live without a lease gets one in a pause: it leads without a watchdog.
pub fn unleased_renewed_in_pause(lease: Lease, turn: &mut Turn, renews: bool) -> Role
    requires { HasLeft 2 0 turn.old }
    ensures outcome { reached (role_of result) turn.new ≡ granted_in_pause turn.old.moment renews (lease_revision lease) Unleased (reached Unleased turn.old) }
    ensures left { Spent 2 0 turn.old turn.new }
{
    let armed = turn.arm_without_watchdog(lease, renews);
    turn.knows.begun = Some(turn.moment);
    turn.knows.noted = turn.machine.server.end;
    Role::Leader(Writer::begin(armed))
}

/// An agent that isn't leading gets a lease in a pause: only whom an operator wants to lead uses it.
pub fn take_key_in_pause(lease: Lease, turn: &mut Turn, renews: bool) -> Role
    requires turn { HasLeft 4 1 turn.old }
    requires server { IsWithin turn.old.machine.now.server }
    ensures outcome { reached (role_of result) turn.new ≡ takes_key_in_pause turn.old.moment renews (lease_revision lease) (reached Follower turn.old) }
    ensures left { Spent 4 1 turn.old turn.new }
{
    let wanted = is_wanted(
        turn.knows.who.me,
        turn.knows.turn_failover,
        turn.machine.server.state,
    );
    if !(wanted && may_take(turn.moment, turn.knows, turn.machine)) {
        turn.release(lease);
        return Role::Follower;
    }
    let armed = turn.arm_without_watchdog(lease, renews);
    begin_or_claim(armed, turn)
}

/// A member may take the leader key: no hold is active, its server can begin, and in synchronous mode the sync key names it.
fn may_take(now: Ticks, knows: &Knowledge, machine: &Machine) -> bool
    ensures { result ≡ may_take now knows.now machine.now }
{
    !is_hold_active(now, machine.hold)
        && can_begin(now, knows, &machine.server)
        && may_lead_in_sync(knows)
}

/// The server can begin to accept writes: a replica, or one that is down and may start as a primary again.
fn can_begin(now: Ticks, knows: &Knowledge, server: &ServerStatus) -> bool
    ensures { result ≡ can_begin now knows.now server.now server.now.state }
{
    match server.state {
        State::Replica => true,
        State::Stopped | State::Crashed => may_start_again(now, knows, server),
        _ => false,
    }
}

/// A server that is down may start as a primary again: its last run was one, and since its crash less time has passed than the
/// start of a primary may take (Patroni's documentation, "Dynamic Configuration Settings": `primary_start_timeout`).
fn may_start_again(now: Ticks, knows: &Knowledge, server: &ServerStatus) -> bool
    ensures { result ≡ may_start_again now knows.now server.now }
{
    let span = knows.turn_settings.primary_start_timeout_ticks();
    server.was_primary && since_crash(now, knows.crashed) < span.0
}

/// So many ticks have passed since the crash was noted; none where none was.
fn since_crash(now: Ticks, crashed: Option<Ticks>) -> u64
    ensures { result ≡ since_crash now crashed }
{
    match crashed {
        None => 0,
        Some(crashed) => now.0.saturating_sub(crashed.0),
    }
}
