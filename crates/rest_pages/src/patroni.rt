//! `/patroni`: what an agent tells of its member (Patroni documentation, "Patroni REST API", "Monitoring endpoint").
ghost use Rattle.std.specs.Prelude.{◌≡◌, IfOk, OnOk, option_copied, string_bytes};
ghost use Rattle.serde_json.specs.Data.{object};
ghost use Rattle.serde_json.specs.Written.{compact_text};
ghost use Rattle.json_build.specs.Objects.{object_members};
ghost use Rattle.rest_pages.specs.Patroni.{named_members, pauses, is_sync_standby, role_text, server_word, streams, with_last_read, with_streaming, location_members, replica_members, with_position, with_xlog, patroni_members, patroni_members_of};

use crate::tags::put_tags;
use cluster_view::{AgentView, Snapshot};
use json_build::Object;
use member_rows::names_standby;
use pat_base::{Lsn, MemberId, Name, State, Ticks, Word};
use std::alloc::{AllocError, Global};

/// The body of `/patroni`, by what the agent shows of itself and of its server. Moments are in ticks of 100 ms from the start of the run,
/// positions in bytes of the log. Always there are `patroni` with the names of member and cluster, `role`, `state` and `timeline`; where
/// it is so, and else not, there are
/// - `dcs_last_seen`: when its last read of the key store was answered;
/// - `pause`: by its newest snapshot the cluster is paused;
/// - `replication_state`, which is `streaming`: the server is a replica, and receives;
/// - `sync_standby`: the sync key in that snapshot names the member as standby;
/// - `tags`: those that are set, the priority where it isn't 1;
/// - `xlog`: where the log ends, as `location` on a primary, as `received_location` and `replayed_location` on a replica.
///
/// It fails only for want of memory.
pub fn patroni_text(alloc: Global, view: &AgentView<'_>) -> Result<String, AllocError>
    ensures { IfOk result (λ text. string_bytes text ≡ compact_text (object (patroni_members view.now))) }
{
    patroni_object(alloc, view, view.seen)?.into_text(alloc)
}

fn patroni_object(
    alloc: Global,
    view: &AgentView<'_>,
    seen: Option<&Snapshot>,
) -> Result<Object, AllocError>
    ensures { IfOk result (λ members. object_members members ≡ patroni_members_of view.now (option_copied seen.entry)) }
{
    let mut members = Object::new(alloc);
    put_last_read(&mut members, alloc, view.last_read)?;
    members.put_object(
        alloc,
        "patroni",
        named_object(alloc, &view.name, &view.scope)?,
    )?;
    members.put_flag(alloc, "pause", pauses(seen))?;
    put_streaming(&mut members, alloc, view.state, view.receives)?;
    members.put_text(alloc, "role", role_text(view.state))?;
    members.put_text(alloc, "state", server_word(view.state).as_str())?;
    members.put_flag(alloc, "sync_standby", is_sync_standby(view.me, seen))?;
    put_tags(&mut members, alloc, &view.tags)?;
    members.put_number(alloc, "timeline", view.timeline)?;
    put_xlog(&mut members, alloc, view.state, view.end)?;
    Ok(members)
}

/// The member and its cluster.
fn named_object(alloc: Global, name: &Name, scope: &Name) -> Result<Object, AllocError>
    ensures { IfOk result (λ members. object_members members ≡ named_members name.now scope.now) }
{
    let mut members = Object::new(alloc);
    members.put_text(alloc, "name", name.as_str())?;
    members.put_text(alloc, "scope", scope.as_str())?;
    Ok(members)
}

/// Whether the newest snapshot pauses the cluster.
fn pauses(seen: Option<&Snapshot>) -> bool
    ensures { result ≡ pauses (option_copied seen.entry) }
{
    match seen {
        None => false,
        Some(seen) => seen.config().pause,
    }
}

/// Whether the newest snapshot has a sync key that names the member as standby.
fn is_sync_standby(me: MemberId, seen: Option<&Snapshot>) -> bool
    ensures { result ≡ is_sync_standby me (option_copied seen.entry) }
{
    match seen {
        None => false,
        Some(seen) => names_standby(seen.sync(), me),
    }
}

/// The role of a server: only one that runs as a primary is told as `master`.
fn role_text(state: State) -> &'static str
    ensures { result.now ≡ role_text state }
{
    match state {
        State::Primary => "master",
        _ => "replica",
    }
}

/// The word of a server. Whether a replica receives is told by `replication_state`.
fn server_word(state: State) -> Word
    ensures { result ≡ server_word state }
{
    match state {
        State::Creating => Word::CreatingReplica,
        State::Stopped => Word::Stopped,
        State::Starting { .. } => Word::Starting,
        State::Replica | State::Primary => Word::Running,
        State::Stopping { .. } => Word::Stopping,
        State::Crashed => Word::Crashed,
    }
}

/// Whether a server streams: it is a replica, and receives.
fn streams(state: State, receives: bool) -> bool
    ensures { result ≡ streams state receives }
{
    match state {
        State::Replica => receives,
        _ => false,
    }
}

/// Puts when the last read was answered, if one was.
fn put_last_read(
    members: &mut Object,
    alloc: Global,
    last_read: Option<Ticks>,
) -> Result<(), AllocError>
    ensures { OnOk result (object_members members.new ≡ with_last_read last_read (object_members members.old)) }
{
    match last_read {
        None => Ok(()),
        Some(tick) => members.put_number(alloc, "dcs_last_seen", tick.0),
    }
}

/// Puts that the server streams, where it does.
fn put_streaming(
    members: &mut Object,
    alloc: Global,
    state: State,
    receives: bool,
) -> Result<(), AllocError>
    ensures { OnOk result (object_members members.new ≡ with_streaming state receives (object_members members.old)) }
{
    if !streams(state, receives) {
        return Ok(());
    }
    members.put_text(alloc, "replication_state", "streaming")
}

/// Puts where the log ends, where that is known.
fn put_xlog(
    members: &mut Object,
    alloc: Global,
    state: State,
    end: Option<Lsn>,
) -> Result<(), AllocError>
    ensures { OnOk result (object_members members.new ≡ with_xlog state end (object_members members.old)) }
{
    match end {
        None => Ok(()),
        Some(end) => put_position(members, alloc, state, end),
    }
}

/// Puts where the log of a server ends that runs.
fn put_position(
    members: &mut Object,
    alloc: Global,
    state: State,
    end: Lsn,
) -> Result<(), AllocError>
    ensures { OnOk result (object_members members.new ≡ with_position state end (object_members members.old)) }
{
    match state {
        State::Primary => members.put_object(alloc, "xlog", location_object(alloc, end)?),
        State::Replica => members.put_object(alloc, "xlog", replica_object(alloc, end)?),
        _ => Ok(()),
    }
}

/// Where the log of a primary ends.
fn location_object(alloc: Global, end: Lsn) -> Result<Object, AllocError>
    ensures { IfOk result (λ members. object_members members ≡ location_members end) }
{
    let mut members = Object::new(alloc);
    members.put_number(alloc, "location", end.position)?;
    Ok(members)
}

/// Where the log of a replica ends, which has replayed all that it received.
fn replica_object(alloc: Global, end: Lsn) -> Result<Object, AllocError>
    ensures { IfOk result (λ members. object_members members ≡ replica_members end) }
{
    let mut members = Object::new(alloc);
    members.put_number(alloc, "received_location", end.position)?;
    members.put_number(alloc, "replayed_location", end.position)?;
    Ok(members)
}
