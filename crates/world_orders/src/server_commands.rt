//! What commands of a script come to at servers.
ghost use Rattle.std.specs.Prelude.{◌≡◌, ◌<◌, ◌^◌, IfSome, option_and_then, option_map, slice_get};
ghost use Rattle.pg_cluster.specs.Servers.{entry_for};
ghost use Rattle.cluster_model.specs.State.{Cluster};
ghost use Rattle.cluster_model.specs.Beginnings.{again_by, beginning_of, completion_in, completion_of};
ghost use Rattle.world_model.specs.Comes.{MayCome};
ghost use Rattle.world_model.specs.Promoting.{promoted_timeline};
ghost use Rattle.cluster_model.specs.ServerCommands.{is_gone, commit_of, crash_of, freezing_of, slow_by, slow_of};

use cluster_model::{Beginning, Completion};
use event_book::{EventKind, LogEvent, Member, Note, ServerEvent, ServerOf};
use pat_base::{State, Ticks};
use pg_cluster::Servers;
use script_model::{Delay, SlowedCall};
use wal_model::Entry;

/// The timeline to which the server of a member is promoted, if it is a replica.
pub fn promoted_timeline(servers: &Servers, member: Member) -> Option<u64>
    requires { IfSome (slice_get servers.now member.id.number) (λ s. s.timeline < 2 ^ 60) }
    ensures { result ≡ option_and_then promoted_timeline (slice_get servers.now member.id.number) }
{
    let server = servers.get(member.id.number as usize)?;
    match server.state() {
        State::Replica => Some(server.timeline() + 1),
        _ => None,
    }
}

/// A crash: what happens where the server isn't gone already.
pub fn crash_of(servers: &Servers, member: Member) -> Option<EventKind>
    ensures kind { result ≡ option_and_then (crash_of member) (slice_get servers.now member.id.number) }
    ensures comes { (cluster : Cluster) → IfSome result (MayCome cluster) }
{
    let server = servers.get(member.id.number as usize)?;
    if is_gone(server.state()) {
        None
    } else {
        Some(EventKind::Server(ServerEvent::Crashed {
            server: ServerOf::of(member),
        }))
    }
}

/// Whether a server crashed, or waits for a copy.
fn is_gone(state: State) -> bool
    ensures { result ≡ is_gone state }
{
    matches!(state, State::Crashed | State::Creating)
}

/// How the server of a member begins by the order of its agent, if it can.
pub fn beginning_of(servers: &Servers, member: Member) -> Option<Beginning>
    requires { IfSome (slice_get servers.now member.id.number) (λ s. s.timeline < 2 ^ 60) }
    ensures { result ≡ option_and_then beginning_of (slice_get servers.now member.id.number) }
{
    let server = servers.get(member.id.number as usize)?;
    match server.state() {
        State::Replica => Some(Beginning::AtOnce {
            timeline: server.timeline() + 1,
        }),
        State::Stopped | State::Crashed if server.was_primary() => {
            Some(again_by(server.timeline(), server.start_delay()))
        }
        _ => None,
    }
}

/// How the server of a member begins that starts again as the primary that it is.
pub fn restart_of(servers: &Servers, member: Member) -> Option<Beginning>
    ensures { result ≡ option_map (λ s. again_by s.timeline s.start_delay) (slice_get servers.now member.id.number) }
{
    let server = servers.get(member.id.number as usize)?;
    Some(again_by(server.timeline(), server.start_delay()))
}

/// A start as a primary on this timeline, where starts take so long.
fn again_by(timeline: u64, delay: Ticks) -> Beginning
    ensures { result ≡ again_by timeline delay }
{
    if delay.0 == 0 {
        Beginning::AtOnce { timeline }
    } else {
        Beginning::WithItsStart
    }
}

/// The completion of a start or a stop as a primary, where the moment of one has come.
pub fn completion_of(servers: &Servers, now: Ticks, member: Member) -> Option<Completion>
    ensures { result ≡ option_and_then (completion_of now.0) (slice_get servers.now member.id.number) }
{
    let server = servers.get(member.id.number as usize)?;
    completion_in(now, server.timeline(), server.state())
}

fn completion_in(now: Ticks, timeline: u64, state: State) -> Option<Completion>
    ensures { result ≡ completion_in now.0 timeline state }
{
    match state {
        State::Starting {
            as_primary: true,
            at,
        } if at <= now => Some(Completion::Begins { timeline }),
        State::Stopping {
            was_primary: true,
            at,
        } if at <= now => Some(Completion::Ends),
        _ => None,
    }
}

/// A freeze, or the end of one: what happens where the server is the other.
pub fn freezing_of(frozen: &[bool], member: Member, to: bool) -> Option<EventKind>
    ensures kind { result ≡ option_and_then (freezing_of to member) (slice_get frozen.now member.id.number) }
    ensures comes { (cluster : Cluster) → IfSome result (MayCome cluster) }
{
    let is_frozen = *frozen.get(member.id.number as usize)?;
    let server = ServerOf::of(member);
    match (to, is_frozen) {
        (true, false) => Some(EventKind::Server(ServerEvent::Frozen { server })),
        (false, true) => Some(EventKind::Server(ServerEvent::Thawed { server })),
        _ => None,
    }
}

/// Another delay: what happens where the server hasn't it already.
pub fn slow_of(
    servers: &Servers,
    member: Member,
    slowed: SlowedCall,
    delay: Delay,
) -> Option<EventKind>
    ensures kind { result ≡ option_and_then (slow_of member slowed delay) (slice_get servers.now member.id.number) }
    ensures comes { (cluster : Cluster) → IfSome result (MayCome cluster) }
{
    let server = servers.get(member.id.number as usize)?;
    slow_by(
        member,
        slowed,
        delay,
        server.stop_delay(),
        server.start_delay(),
    )
}

fn slow_by(
    member: Member,
    slowed: SlowedCall,
    delay: Delay,
    stop: Ticks,
    start: Ticks,
) -> Option<EventKind>
    ensures kind { result ≡ slow_by member slowed delay stop start }
    ensures comes { (cluster : Cluster) → IfSome result (MayCome cluster) }
{
    let server = ServerOf::of(member);
    let ticks = Ticks(delay.ticks);
    match slowed {
        SlowedCall::Stop if stop.0 != delay.ticks => Some(EventKind::Server(ServerEvent::Slowed {
            server,
            stop: Some(ticks),
            start: None,
        })),
        SlowedCall::Start if start.0 != delay.ticks => Some(EventKind::Server(
            ServerEvent::Slowed {
                server,
                stop: None,
                start: Some(ticks),
            },
        )),
        _ => None,
    }
}

/// A commit of so many bytes at the server of a member, which refuses it unless it accepts writes.
pub fn commit_of(servers: &Servers, member: Member, serial: u64, bytes: u64) -> EventKind
    ensures { result ≡ commit_of member (entry_for servers.now member.id.number serial bytes) }
{
    let server = ServerOf::of(member);
    match entry_for(servers, member.id.number as usize, serial, bytes) {
        None => EventKind::Note(Note::RefusesCommit { server }),
        Some(entry) => EventKind::Log(LogEvent::Appended { server, entry }),
    }
}

/// The entry of a commit at the server at a place, where that one accepts writes and its log has room for it.
fn entry_for(servers: &Servers, place: usize, serial: u64, bytes: u64) -> Option<Entry>
    ensures { result ≡ entry_for servers.now place serial bytes }
{
    let server = servers.get(place)?;
    if !server.writes() {
        return None;
    }
    match server.log() {
        Some(log) if log.fits(bytes) => Some(Entry {
            serial,
            timeline: server.timeline(),
            bytes,
        }),
        _ => None,
    }
}
