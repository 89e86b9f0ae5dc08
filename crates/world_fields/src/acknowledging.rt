//! What is written down of commits whose clients are told that they are stored, and of the servers that lack one.
ghost use Rattle.std.specs.Prelude.{◌≡◌, ◌∷◌, ◌++◌, [], OnOk, slice_get};
ghost use Rattle.event_book.specs.declared.event.Event.{Event};
ghost use Rattle.event_book.specs.declared.event.EventKind.TheVariants as kinds;
ghost use Rattle.event_book.specs.declared.event.ReplicationEvent.TheVariants as replications;
ghost use Rattle.event_book.specs.Writers.{writes_in};
ghost use Rattle.event_list.specs.Listed.{◌+++◌};
ghost use Rattle.cluster_model.specs.Losing.{loss_of, losses_of};
ghost use Rattle.cluster_model.specs.Parts.{events_at};

use crate::losing::loss_at;
use crate::writing::write_down;
use event_book::{EventKind, Member, ReplicationEvent, ServerOf};
use event_list::EventList;
use pat_base::{MemberId, Ticks};
use pg_cluster::Servers;
use std::alloc::AllocError;
use wal_model::Serials;

/// A commit of this server is acknowledged: it stands behind those that were, and that is written down.
pub fn tell_acknowledged(
    told: &mut Serials,
    server: ServerOf,
    commit: u64,
    tick: Ticks,
    events: &mut EventList,
) -> Result<(), AllocError>
    ensures told { OnOk result (told.new ≡ told.old ++ commit ∷ []) }
    ensures event { OnOk result (events.new ≡ events.old +++ record { tick = tick; kind = kinds.Replication (replications.Acknowledged server commit) } ∷ []) }
{
    told.push(commit)?;
    let acknowledged = ReplicationEvent::Acknowledged { server, commit };
    write_down(events, tick, EventKind::Replication(acknowledged))
}

/// Writes down which servers of these members that accept writes lack this commit, in script order.
pub fn tell_losses(
    servers: &Servers,
    members: &[Member],
    commit: u64,
    tick: Ticks,
    events: &mut EventList,
) -> Result<(), AllocError>
    ensures { OnOk result (events.new ≡ events.old +++ events_at tick (losses_of commit servers.now members.now)) }
{
    for member in members {
        tell_loss(servers, member, commit, tick, events)?;
    }
    Ok(())
}

/// Whether the server of a member, if there is one, accepts writes.
pub fn accepts_writes(servers: &Servers, id: MemberId) -> bool
    ensures { result ≡ writes_in servers.now id.number }
{
    match servers.get(id.number as usize) {
        None => false,
        Some(server) => server.writes(),
    }
}

/// That of a member does, where it is so.
fn tell_loss(
    servers: &Servers,
    member: &Member,
    commit: u64,
    tick: Ticks,
    events: &mut EventList,
) -> Result<(), AllocError>
    ensures { OnOk result (events.new ≡ events.old +++ events_at tick (loss_of commit member.now (slice_get servers.now member.now.id.number))) }
{
    // which most don't, and then its name isn't copied
    if !accepts_writes(servers, member.id) {
        return Ok(());
    }
    match loss_at(servers, *member, commit) {
        None => Ok(()),
        Some(loss) => write_down(events, tick, loss),
    }
}
