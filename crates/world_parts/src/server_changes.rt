//! What a happening changes at servers.
ghost use Rattle.std.specs.Prelude.{◌≡◌, ◌<◌, ◌≤◌, ◌^◌, ◌==◌, ◌&&◌, ◌||◌, not, OnOk, IfSome, IsTrue, None, slice_get};
ghost use Rattle.pat_base.specs.Changes.{with_changed};
ghost use Rattle.event_book.specs.Servers.{begun_in, servers_after, servers_by, servers_by_log, servers_by_replication, servers_by_watchdog, starts_as_primary, starts_as_replica, stops};
ghost use Rattle.pg_model.specs.Facts.{is_up};
ghost use Rattle.pg_model.specs.Running.{is_primary, stopped};
ghost use Rattle.world_model.specs.Comes.{begins_in, ends_at, LogComes, ReplicationComes, ServerComes, ServesAt};
ghost use Rattle.pat_base.specs.Moments.{latest};

use event_book::{EventKind, LogEvent, ReplicationEvent, ServerEvent, WatchdogEvent};
use pat_base::{State, Ticks};
use pg_cluster::Servers;
use std::alloc::AllocError;

/// The servers after a happening of this moment, where the cluster follows no remote primary. It fails only for want of memory.
pub fn change_servers(servers: &mut Servers, now: Ticks, kind: &EventKind) -> Result<(), AllocError>
    requires moment { now.0 ≤ latest }
    requires serves { ServesAt now.0 servers.old kind.now }
    ensures { OnOk result (servers.new ≡ servers_after now.0 servers.old None kind.now) }
{
    match kind {
        EventKind::Tick => {
            servers.tick(now);
            Ok(())
        }
        EventKind::Server(happening) => change_server(servers, now, happening),
        EventKind::Log(happening) => change_log(servers, happening),
        EventKind::Replication(happening) => {
            change_replication(servers, happening);
            Ok(())
        }
        EventKind::Watchdog(happening) => {
            reset(servers, happening);
            Ok(())
        }
        _ => Ok(()),
    }
}

fn change_server(
    servers: &mut Servers,
    now: Ticks,
    happening: &ServerEvent,
) -> Result<(), AllocError>
    requires moment { now.0 ≤ latest }
    requires comes { ServerComes now.0 servers.old happening.now }
    ensures { OnOk result (servers.new ≡ servers_by now.0 servers.old happening.now) }
{
    match happening {
        ServerEvent::Began { server, .. } => begin(servers, now, server.id.number as usize),
        ServerEvent::Ended { server } => {
            end(servers, now, server.id.number as usize);
            Ok(())
        }
        ServerEvent::Crashed { server } => {
            servers.crash(server.id.number as usize);
            Ok(())
        }
        ServerEvent::Stops { server } => {
            stop(servers, now, server.id.number as usize);
            Ok(())
        }
        ServerEvent::StartsAsPrimary { server } => {
            start_primary(servers, now, server.id.number as usize);
            Ok(())
        }
        ServerEvent::StartsAsReplica { server } => {
            start_replica(servers, now, server.id.number as usize);
            Ok(())
        }
        ServerEvent::Follows { server, upstream } => {
            servers.follow(server.id.number as usize, upstream.id);
            Ok(())
        }
        ServerEvent::Slowed {
            server,
            stop,
            start,
        } => {
            servers.set_delays(server.id.number as usize, *stop, *start);
            Ok(())
        }
        _ => Ok(()),
    }
}

/// The server at a place begins to accept writes, which can: a replica is promoted, a start as a primary is complete, or one that is
/// down starts as a primary at once. It fails only for want of memory.
fn begin(servers: &mut Servers, now: Ticks, place: usize) -> Result<(), AllocError>
    requires moment { now.0 ≤ latest }
    requires begins { IfSome (slice_get servers.old place) (λ s. IsTrue (begins_in now.0 s s.state) × (s.timeline < 2 ^ 60)) }
    ensures { OnOk result (servers.new ≡ with_changed servers.old place (λ s. begun_in s.state s)) }
{
    let Some(server) = servers.get(place) else {
        return Ok(());
    };
    match server.state() {
        State::Replica => servers.promote(place, now),
        State::Starting { .. } => {
            servers.complete(place, now);
            Ok(())
        }
        _ => {
            servers.start_primary(place, now);
            Ok(())
        }
    }
}

/// The server at a place, whose last run was a primary, starts as one, where it is down and its starts take time.
fn start_primary(servers: &mut Servers, now: Ticks, place: usize)
    requires moment { now.0 ≤ latest }
    requires primary { IfSome (slice_get servers.old place) (λ s. IsTrue s.was_primary) }
    ensures { servers.new ≡ with_changed servers.old place (starts_as_primary now.0) }
{
    let Some(server) = servers.get(place) else {
        return;
    };
    if server.state().is_down() && server.start_delay() != Ticks(0) {
        servers.start_primary(place, now);
    }
}

/// The server at a place starts as a replica: of none where it is down, and where it runs as one again, of whom it follows.
fn start_replica(servers: &mut Servers, now: Ticks, place: usize)
    requires { now.0 ≤ latest }
    ensures { servers.new ≡ with_changed servers.old place (starts_as_replica now.0) }
{
    let Some(server) = servers.get(place) else {
        return;
    };
    match server.state() {
        State::Stopped | State::Crashed => servers.start_replica(place, now, None),
        State::Replica => servers.restart(place, now),
        _ => {}
    }
}

/// The server at a place ends, which can: it accepts writes, and stops take no time, or its stop is complete.
fn end(servers: &mut Servers, now: Ticks, place: usize)
    requires moment { now.0 ≤ latest }
    requires ends { IfSome (slice_get servers.old place) (λ s. IsTrue (ends_at now.0 s.state s.stop_delay)) }
    ensures { servers.new ≡ with_changed servers.old place stopped }
{
    let Some(server) = servers.get(place) else {
        return;
    };
    match server.state() {
        State::Primary => servers.stop(place, now),
        _ => servers.complete(place, now),
    }
}

/// The shutdown of the server at a place begins, where that ends no writing at once.
fn stop(servers: &mut Servers, now: Ticks, place: usize)
    requires { now.0 ≤ latest }
    ensures { servers.new ≡ with_changed servers.old place (stops now.0) }
{
    let Some(server) = servers.get(place) else {
        return;
    };
    if stops_quietly(server.state(), server.stop_delay()) {
        servers.stop(place, now);
    }
}

/// Whether a shutdown of a server in this state, whose stops take so long, ends no writing at once.
fn stops_quietly(state: State, delay: Ticks) -> bool
    ensures { result ≡ (is_up state && (not (is_primary state) || not (delay.0 == 0))) }
{
    match state {
        State::Starting { .. } | State::Replica => true,
        State::Primary => delay.0 != 0,
        _ => false,
    }
}

fn change_log(servers: &mut Servers, happening: &LogEvent) -> Result<(), AllocError>
    requires { LogComes servers.old happening.now }
    ensures { OnOk result (servers.new ≡ servers_by_log servers.old None happening.now) }
{
    match happening {
        LogEvent::Appended { server, entry } => {
            servers.commit(server.id.number as usize, entry.serial, entry.bytes)?;
        }
        LogEvent::Wiped { server } => servers.wipe(server.id.number as usize),
        _ => {}
    }
    Ok(())
}

fn change_replication(servers: &mut Servers, happening: &ReplicationEvent)
    requires { ReplicationComes happening.now }
    ensures { servers.new ≡ servers_by_replication servers.old happening.now }
{
    match happening {
        ReplicationEvent::RequiredSet {
            server,
            required,
            ..
        } => servers.set_required(server.id.number as usize, *required),
        ReplicationEvent::Confirmed { server, by, end } => {
            servers.confirm(server.id.number as usize, by.id, *end)
        }
        _ => {}
    }
}

/// A reset of its machine crashes a server.
fn reset(servers: &mut Servers, happening: &WatchdogEvent)
    ensures { servers.new ≡ servers_by_watchdog servers.old happening.now }
{
    if let WatchdogEvent::Reset { member } = happening {
        servers.crash(member.id.number as usize);
    }
}
