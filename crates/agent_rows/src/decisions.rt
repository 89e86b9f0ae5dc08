//! What an agent does once the key store has decided on its request for the leader key.
ghost use Rattle.std.specs.Prelude.{true, ◌≡◌};
ghost use Rattle.agent_turn.specs.Turns.{HasLeft, Spent, reached};
ghost use Rattle.leader_key.specs.Watchdog.{IsLeaseSpan};
ghost use Rattle.agent_model.specs.Agents.{IsWithin};
ghost use Rattle.agent_model.specs.Decisions.{accepted_grant, accepted_sync, asks_in_pause, asks_lease, asks_renewal, asks_sync, follower_for, granted, granted_in_pause, granted_late, is_decision, is_sync_decision, lease_granted, lease_heard, lease_used, refused, refused_as, renewal_refused, uses_lease};
ghost use Rattle.agent_model.specs.Answers.{most_grant_outputs};
ghost use Rattle.agent_turn.specs.Roles.{role_of};
ghost use Rattle.agent_model.specs.Acting.{waiting_no_more};

use agent_following::{leader_without_key, unleased_without_key};
use agent_leadership::{
    claim_fails, claim_granted, leader_kept, leader_renewed, leader_renewed_in_pause, settle,
    take_key, take_key_in_pause, take_late, unleased_renewed, unleased_renewed_in_pause,
    unleased_unarmed,
};
use agent_model::{PendingQuestion, Question};
use agent_turn::{Role, Turn, belongs, comes_late, inform, is_lease_of, is_paused, is_write_of};
use cluster_view::Snapshot;
use leader_key::Lease;
use lease_store::Granted;
use pat_base::Ticks;

/// A request was granted: what is waited for is used, and any other dropped.
pub(crate) fn granted(
    role: Role,
    turn: &mut Turn,
    sequence: u64,
    grant: Granted,
    snapshot: Snapshot,
) -> Role
    requires turn { HasLeft most_grant_outputs 1 turn.old }
    requires server { IsWithin turn.old.machine.now.server }
    ensures outcome { reached (role_of result) turn.new ≡ granted turn.old.moment sequence grant snapshot (reached (role_of role) turn.old) }
    ensures left { Spent most_grant_outputs 1 turn.old turn.new }
{
    let Some(waited) = turn.knows.waited else {
        return role;
    };
    if is_decision(waited, sequence) && is_lease_of(turn.knows.who.me, &grant) {
        return accept_grant(waited, role, turn, grant, snapshot);
    }
    if is_sync_decision(waited, sequence) && is_write_of(turn.knows.who.me, &grant) {
        return accept_sync(waited, role, turn, snapshot);
    }
    role
}

/// A grant of the leader key that is waited for is used where its question belongs to the role; its snapshot is then the newest.
fn accept_grant(
    waited: PendingQuestion,
    role: Role,
    turn: &mut Turn,
    grant: Granted,
    snapshot: Snapshot,
) -> Role
    requires turn { HasLeft most_grant_outputs 1 turn.old }
    requires span { IsLeaseSpan waited.ttl.0 }
    requires leased { grant.leased ≡ true }
    requires server { IsWithin turn.old.machine.now.server }
    ensures outcome { reached (role_of result) turn.new ≡ accepted_grant turn.old.moment waited grant.revision snapshot (reached (role_of role) turn.old) }
    ensures left { Spent most_grant_outputs 1 turn.old turn.new }
{
    let paused = snapshot.settings_or(turn.knows.settings).pause;
    if !uses_lease(paused, waited.question, &role) {
        turn.knows.waited = None;
        return role;
    }
    let listed = snapshot.failsafe().is_some();
    inform(turn.knows, snapshot);
    let role = use_lease(waited, role, turn, grant);
    turn.knows.confirmed = turn.knows.confirmed || (matches!(&role, Role::Leader(_)) && listed);
    role
}

/// A lease is granted that was asked for so; in a pause nothing is late.
fn use_lease(waited: PendingQuestion, role: Role, turn: &mut Turn, grant: Granted) -> Role
    requires turn { HasLeft most_grant_outputs 1 turn.old }
    requires span { IsLeaseSpan waited.ttl.0 }
    requires leased { grant.leased ≡ true }
    requires server { IsWithin turn.old.machine.now.server }
    ensures outcome { reached (role_of result) turn.new ≡ lease_used turn.old.moment waited grant.revision (reached (role_of role) turn.old) }
    ensures left { Spent most_grant_outputs 1 turn.old turn.new }
{
    if is_paused(turn.knows) {
        granted_in_pause(role, turn, waited.question, grant)
    } else {
        lease_heard(waited, role, turn, grant)
    }
}

/// A lease is granted that was asked for so, and heard of in time or too late.
fn lease_heard(waited: PendingQuestion, role: Role, turn: &mut Turn, grant: Granted) -> Role
    requires turn { HasLeft most_grant_outputs 1 turn.old }
    requires span { IsLeaseSpan waited.ttl.0 }
    requires leased { grant.leased ≡ true }
    requires server { IsWithin turn.old.machine.now.server }
    ensures outcome { reached (role_of result) turn.new ≡ lease_heard turn.old.moment waited grant.revision (reached (role_of role) turn.old) }
    ensures left { Spent most_grant_outputs 1 turn.old turn.new }
{
    if comes_late(turn.moment, waited, turn.machine) {
        granted_late(role, turn, grant)
    } else {
        lease_granted(role, turn, waited.ttl, grant)
    }
}

/// A grant of the leader key is used in this role: its question belongs to it, or in a pause who runs on without the key asks for
/// it too.
fn uses_lease(paused: bool, question: Question, role: &Role) -> bool
    ensures { result ≡ uses_lease paused question (role_of role.now) }
{
    belongs(question, role) || (paused && asks_in_pause(question, role))
}

fn asks_in_pause(question: Question, role: &Role) -> bool
    ensures { result ≡ asks_in_pause question (role_of role.now) }
{
    matches!((question, role), (Question::Creating, Role::Unleased))
}

fn asks_renewal(question: Question) -> bool
    ensures { result ≡ asks_renewal question }
{
    matches!(question, Question::Renewing)
}

/// An agent gets a lease in a pause, to this question.
fn granted_in_pause(role: Role, turn: &mut Turn, question: Question, grant: Granted) -> Role
    requires turn { HasLeft most_grant_outputs 1 turn.old }
    requires leased { grant.leased ≡ true }
    requires server { IsWithin turn.old.machine.now.server }
    ensures outcome { reached (role_of result) turn.new ≡ granted_in_pause turn.old.moment (asks_renewal question) grant.revision (role_of role) (reached (role_of role) turn.old) }
    ensures left { Spent most_grant_outputs 1 turn.old turn.new }
{
    let renews = asks_renewal(question);
    match role {
        Role::Leader(writer) => leader_renewed_in_pause(writer, turn, renews, grant),
        Role::Unleased => unleased_renewed_in_pause(Lease::of(grant), turn, renews),
        Role::Follower => take_key_in_pause(Lease::of(grant), turn, renews),
        Role::Holder(lease) => {
            lease.lost();
            take_key_in_pause(Lease::of(grant), turn, renews)
        }
        role => role,
    }
}

/// So is the grant of a write of the sync key.
fn accept_sync(waited: PendingQuestion, role: Role, turn: &mut Turn, snapshot: Snapshot) -> Role
    requires turn { HasLeft 2 0 turn.old }
    requires server { IsWithin turn.old.machine.now.server }
    ensures outcome { reached (role_of result) turn.new ≡ accepted_sync turn.old.moment waited snapshot (reached (role_of role) turn.old) }
    ensures left { Spent 2 0 turn.old turn.new }
{
    if !belongs(waited.question, &role) {
        turn.knows.waited = None;
        return role;
    }
    inform(turn.knows, snapshot);
    match (waited.question, role) {
        (Question::Claiming, Role::Ready(armed)) => claim_granted(armed, turn),
        (Question::Syncing(settling), role) => {
            settle(settling, turn);
            role
        }
        (_, role) => role,
    }
}

/// The decision on this request for the leader key is waited for.
fn is_decision(waited: PendingQuestion, sequence: u64) -> bool
    ensures { result ≡ is_decision waited sequence }
{
    asks_lease(waited.question) && waited.sequence == sequence
}

fn asks_lease(question: Question) -> bool
    ensures { result ≡ asks_lease question }
{
    matches!(question, Question::Creating | Question::Renewing)
}

/// The decision on this write of the sync key is waited for.
fn is_sync_decision(waited: PendingQuestion, sequence: u64) -> bool
    ensures { result ≡ is_sync_decision waited sequence }
{
    asks_sync(waited.question) && waited.sequence == sequence
}

fn asks_sync(question: Question) -> bool
    ensures { result ≡ asks_sync question }
{
    matches!(question, Question::Claiming | Question::Syncing(_))
}

/// An agent gets a lease of this span.
fn lease_granted(role: Role, turn: &mut Turn, ttl: Ticks, grant: Granted) -> Role
    requires turn { HasLeft most_grant_outputs 1 turn.old }
    requires span { IsLeaseSpan ttl.0 }
    requires leased { grant.leased ≡ true }
    requires server { IsWithin turn.old.machine.now.server }
    ensures outcome { reached (role_of result) turn.new ≡ lease_granted turn.old.moment ttl grant.revision (role_of role) (reached (role_of role) turn.old) }
    ensures left { Spent most_grant_outputs 1 turn.old turn.new }
{
    match role {
        Role::Leader(writer) => leader_renewed(writer, turn, ttl, grant),
        Role::Unleased => unleased_renewed(Lease::of(grant), turn, ttl),
        Role::Follower => take_key(Lease::of(grant), turn, ttl),
        Role::Holder(lease) => {
            lease.lost();
            take_key(Lease::of(grant), turn, ttl)
        }
        role => role,
    }
}

/// An agent gets a lease, and hears of it too late.
fn granted_late(role: Role, turn: &mut Turn, grant: Granted) -> Role
    requires turn { HasLeft most_grant_outputs 1 turn.old }
    requires leased { grant.leased ≡ true }
    requires server { IsWithin turn.old.machine.now.server }
    ensures outcome { reached (role_of result) turn.new ≡ granted_late turn.old.moment grant.revision (role_of role) (reached (role_of role) turn.old) }
    ensures left { Spent most_grant_outputs 1 turn.old turn.new }
{
    match role {
        Role::Leader(writer) => leader_kept(writer, turn, grant),
        Role::Unleased => unleased_unarmed(Lease::of(grant), turn),
        Role::Follower => take_late(Lease::of(grant), turn),
        Role::Holder(lease) => {
            lease.lost();
            take_late(Lease::of(grant), turn)
        }
        role => role,
    }
}

/// A request was refused: what is waited for is used, and any other dropped.
pub(crate) fn refused(role: Role, turn: &mut Turn, sequence: u64) -> Role
    requires turn { HasLeft 2 0 turn.old }
    requires server { IsWithin turn.old.machine.now.server }
    ensures outcome { reached (role_of result) turn.new ≡ refused turn.old.moment sequence (reached (role_of role) turn.old) }
    ensures left { Spent 2 0 turn.old turn.new }
{
    let Some(waited) = turn.knows.waited else {
        return role;
    };
    if !is_decision(waited, sequence) && !is_sync_decision(waited, sequence) {
        return role;
    }
    refused_as(waited.question, role, turn)
}

/// What is waited for was refused.
fn refused_as(question: Question, role: Role, turn: &mut Turn) -> Role
    requires turn { HasLeft 2 0 turn.old }
    requires server { IsWithin turn.old.machine.now.server }
    ensures outcome { reached (role_of result) turn.new ≡ refused_as turn.old.moment question (waiting_no_more (reached (role_of role) turn.old)) }
    ensures left { Spent 2 0 turn.old turn.new }
{
    turn.knows.waited = None;
    match question {
        Question::Creating => create_refused(role),
        Question::Renewing => renewal_refused(role, turn),
        Question::Claiming => claim_fails(role, turn),
        Question::Reading
        | Question::ComparingPositions
        | Question::Syncing(_)
        | Question::FindingCandidate
        | Question::StayingPrimary => role,
    }
}

/// The leader key isn't absent any more: an agent has no lease.
fn create_refused(role: Role) -> Role
    ensures { role_of result ≡ follower_for (role_of role) }
{
    match role {
        Role::Holder(lease) => {
            lease.lost();
            Role::Follower
        }
        role => role,
    }
}

/// The leader key isn't as it was read: a lease is lost.
fn renewal_refused(role: Role, turn: &mut Turn) -> Role
    requires turn { HasLeft 1 0 turn.old }
    requires server { IsWithin turn.old.machine.now.server }
    ensures outcome { reached (role_of result) turn.new ≡ renewal_refused turn.old.moment (role_of role) (reached (role_of role) turn.old) }
    ensures left { Spent 1 0 turn.old turn.new }
{
    match role {
        Role::Leader(writer) => leader_without_key(writer, turn),
        Role::Unleased => unleased_without_key(turn),
        Role::Holder(lease) => {
            lease.lost();
            Role::Follower
        }
        role => role,
    }
}
