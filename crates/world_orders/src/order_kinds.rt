//! What orders of agents come to.
ghost use Rattle.std.specs.Prelude.{ℕ, ◌≡◌, ◌<◌, ◌+◌, ◌^◌, IfSome, IfOk, Some, None, option_and_then, option_map, slice_get};
ghost use Rattle.event_book.specs.Members.{server_of};
ghost use Rattle.cluster_model.specs.Messages.{noting_kind, receiver_of};
ghost use Rattle.cluster_model.specs.Orders.{agent_noting, arming, barring, declared_member, declared_name, failsafe_feeding, feeding, following_of, hold_taken, is_same_required, require_of, spoken_of, stop_kind, stop_of, upstream_of, wipe_of};
ghost use Rattle.cluster_model.specs.State.{Cluster};
ghost use Rattle.world_model.specs.Comes.{MayCome};

use agent_model::{Noting, Target};
use cluster_model::HeardMessage;
use event_book::{
    AgentNote, Basis, EventKind, LinkEnd, LogEvent, Member, Note, ReplicationEvent, ServerEvent,
    ServerOf, WatchdogEvent,
};
use pat_base::{Ineligibility, MemberId, MemberSet, Name, Required, State, Ticks};
use pg_cluster::Servers;
use std::alloc::{AllocError, Global};
use world_fields::members::member_at;
use world_fields::naming::required_names;

/// The declared member of this number, if there is a number.
pub fn declared_member(members: &[Member], id: Option<MemberId>) -> Option<Member>
    ensures { result ≡ declared_member members.now id }
{
    member_at(members, id?)
}

/// Whom an agent writes to, if that is declared.
pub fn receiver_of(members: &[Member], target: Target) -> Option<LinkEnd>
    ensures { result ≡ receiver_of members.now target }
{
    match target {
        Target::Store => Some(LinkEnd::Store),
        Target::Member(id) => Some(LinkEnd::Member(member_at(members, id)?)),
    }
}

/// A server follows this leader's: what happens where there is such a member.
pub fn following_of(member: Member, leader: Option<Member>) -> Option<EventKind>
    ensures kind { result ≡ following_of member leader }
    ensures comes { (cluster : Cluster) → IfSome result (MayCome cluster) }
{
    let leader = leader?;
    Some(EventKind::Server(ServerEvent::Follows {
        server: ServerOf::of(member),
        upstream: ServerOf::of(leader),
    }))
}

/// A server that is a replica follows this leader's: what happens where there is such a member.
pub fn upstream_of(servers: &Servers, member: Member, leader: Option<Member>) -> Option<EventKind>
    ensures kind { result ≡ option_and_then (upstream_of member leader) (slice_get servers.now member.id.number) }
    ensures comes { (cluster : Cluster) → IfSome result (MayCome cluster) }
{
    let server = servers.get(member.id.number as usize)?;
    match server.state() {
        State::Replica => following_of(member, leader),
        _ => None,
    }
}

/// A shutdown by the agent: what happens where the server runs or starts.
pub fn stop_of(servers: &Servers, member: Member) -> Option<EventKind>
    ensures kind { result ≡ option_and_then (stop_of member) (slice_get servers.now member.id.number) }
    ensures comes { (cluster : Cluster) → cluster.facts.servers ≡ servers.now → IfSome result (MayCome cluster) }
{
    let server = servers.get(member.id.number as usize)?;
    match server.state() {
        State::Starting { .. } | State::Replica | State::Primary => Some(stop_kind(
            member,
            server.state(),
            server.stop_delay(),
        )),
        _ => None,
    }
}

fn stop_kind(member: Member, state: State, delay: Ticks) -> EventKind
    ensures { result ≡ stop_kind member state delay }
{
    let server = ServerOf::of(member);
    match state {
        State::Primary if delay.0 == 0 => EventKind::Server(ServerEvent::Ended { server }),
        _ => EventKind::Server(ServerEvent::Stops { server }),
    }
}

/// The server of a member is wiped: what happens where it doesn't accept writes, won't when its start is complete, and doesn't wait
/// for a copy already.
pub fn wipe_of(servers: &Servers, member: Member) -> Option<EventKind>
    ensures kind { result ≡ option_and_then (wipe_of member) (slice_get servers.now member.id.number) }
    ensures comes { (cluster : Cluster) → cluster.facts.servers ≡ servers.now → IfSome result (MayCome cluster) }
{
    let server = servers.get(member.id.number as usize)?;
    if server.state() == State::Creating || server.live() {
        None
    } else {
        Some(EventKind::Log(LogEvent::Wiped {
            server: ServerOf::of(member),
        }))
    }
}

/// A change of those whom commits wait for: what happens where that is one. It fails only for want of memory.
pub fn require_of(
    alloc: Global,
    members: &[Member],
    servers: &Servers,
    member: Member,
    required: Required,
) -> Result<Option<EventKind>, AllocError>
    ensures kind { IfOk result (λ kind. kind ≡ option_and_then (require_of members.now member required) (slice_get servers.now member.id.number)) }
    ensures comes { IfOk result (λ kind. (cluster : Cluster) → IfSome kind (MayCome cluster)) }
{
    let Some(server) = servers.get(member.id.number as usize) else {
        return Ok(None);
    };
    if is_same_required(server.required(), required) {
        return Ok(None);
    }
    Ok(Some(EventKind::Replication(ReplicationEvent::RequiredSet {
        server: ServerOf::of(member),
        required,
        names: required_names(alloc, members, required)?,
    })))
}

/// Whether commits wait for the same members.
fn is_same_required(first: Required, second: Required) -> bool
    ensures { result ≡ is_same_required first second }
{
    match (first, second) {
        (Required::Nobody, Required::Nobody) => true,
        (Required::AnyOne, Required::AnyOne) => true,
        (Required::All(first), Required::All(second)) => first.bits == second.bits,
        (
            Required::AtLeast { number, of: first },
            Required::AtLeast {
                number: other,
                of: second,
            },
        ) => number == other && first.bits == second.bits,
        _ => false,
    }
}

/// A promise not to take the leader key before a moment, on the failsafe request of another member: what happens where there
/// is that one.
pub fn hold_of_request(
    member: Member,
    until: Ticks,
    incarnation: u64,
    sequence: u64,
    from: Option<Member>,
) -> Option<EventKind>
    ensures kind { result ≡ option_map (hold_taken member until incarnation sequence) from }
    ensures comes { (cluster : Cluster) → IfSome result (MayCome cluster) }
{
    let from = from?;
    Some(EventKind::Watchdog(WatchdogEvent::HoldTaken {
        member,
        until,
        from,
        incarnation,
        sequence,
    }))
}

/// The first deadline of a watchdog, on the message that was heard.
pub fn arming(member: Member, until: Ticks, heard: HeardMessage) -> EventKind
    ensures kind { result ≡ arming member until heard }
    ensures comes { (cluster : Cluster) → MayCome cluster result }
{
    EventKind::Watchdog(WatchdogEvent::Armed {
        member,
        until,
        answer: heard.number,
    })
}

/// A new deadline of a watchdog, on the message that was heard.
pub fn feeding(member: Member, until: Ticks, heard: HeardMessage) -> EventKind
    ensures kind { result ≡ feeding member until heard }
    ensures comes { (cluster : Cluster) → MayCome cluster result }
{
    EventKind::Watchdog(WatchdogEvent::Fed {
        member,
        until,
        basis: Basis::Grant {
            answer: heard.number,
        },
    })
}

/// A new deadline of a watchdog, since these members acknowledged the failsafe request of this number.
pub fn failsafe_feeding(
    member: Member,
    until: Ticks,
    members: MemberSet,
    sequence: u64,
) -> EventKind
    ensures kind { result ≡ failsafe_feeding member until members sequence }
    ensures comes { (cluster : Cluster) → MayCome cluster result }
{
    EventKind::Watchdog(WatchdogEvent::Fed {
        member,
        until,
        basis: Basis::Acknowledgements { members, sequence },
    })
}

/// What the agent of a member notes.
pub fn noting_kind(members: &[Member], member: Member, noting: Noting) -> EventKind
    ensures kind { result ≡ noting_kind members.now member noting }
    ensures comes { (cluster : Cluster) → MayCome cluster result }
{
    match noting {
        Noting::Agent(note) => agent_noting(members, member, note),
        Noting::StaysByFailsafe => EventKind::Note(Note::StaysByFailsafe { member }),
    }
}

/// A note with the name of the member that it speaks of.
fn agent_noting(members: &[Member], member: Member, note: AgentNote) -> EventKind
    ensures kind { result ≡ agent_noting members.now member note }
    ensures comes { (cluster : Cluster) → MayCome cluster result }
{
    EventKind::Note(Note::OfAgent {
        member,
        note,
        about: declared_name(members, spoken_of(note)),
    })
}

/// The member that a note of an agent speaks of, if it speaks of one.
fn spoken_of(note: AgentNote) -> Option<MemberId>
    ensures { result ≡ spoken_of note }
{
    match note {
        AgentNote::DoesNotRace { because } => barring(because),
        AgentNote::HandsOver { candidate } => Some(candidate),
        _ => None,
    }
}

/// The name of the declared member of this number, if there is a number.
fn declared_name(members: &[Member], id: Option<MemberId>) -> Option<Name>
    ensures { result ≡ declared_name members.now id }
{
    let member = declared_member(members, id)?;
    Some(member.name)
}

/// The member that bars another one from racing, if one does.
fn barring(bar: Ineligibility) -> Option<MemberId>
    ensures { result ≡ barring bar }
{
    match bar {
        Ineligibility::Candidate(member)
        | Ineligibility::OtherWrites(member)
        | Ineligibility::Ahead(member)
        | Ineligibility::Priority(member) => Some(member),
        _ => None,
    }
}
