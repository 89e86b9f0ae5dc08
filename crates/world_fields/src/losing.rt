//! Acknowledged commits that a server lacks which accepts writes.
ghost use Rattle.std.specs.Prelude.{◌≡◌, IfOk, IfSome, option_and_then, option_copied, option_map, slice_get};
ghost use Rattle.pg_model.specs.Facts.{entries_of};
ghost use Rattle.cluster_model.specs.Losing.{is_lacking, loss_if};
ghost use Rattle.cluster_model.specs.State.{Cluster};
ghost use Rattle.wal_model.specs.Lacking.{has_serial, lacks_in};
ghost use Rattle.world_model.specs.Comes.{MayCome};
ghost use Rattle.world_model.specs.Promoting.{loss_at, loss_of_any};

use event_book::{EventKind, Member, ReplicationEvent, ServerOf};
use pg_cluster::Servers;
use pg_model::Server;
use std::alloc::{AllocError, Global};
use wal_model::{Serials, Wal, has_serial, lacks};

/// That the server of a member lacks an acknowledged commit is told, where the test says it.
fn loss_if(member: Member, is_lacking: bool) -> Option<EventKind>
    ensures kind { result ≡ loss_if member is_lacking }
    ensures comes { (cluster : Cluster) → IfSome result (MayCome cluster) }
{
    if is_lacking {
        Some(EventKind::Replication(ReplicationEvent::Lacks {
            server: ServerOf::of(member),
        }))
    } else {
        None
    }
}

/// It is told of the server of a member, where that one accepts writes and lacks this commit. It costs time in the entries
/// behind that commit in the log.
pub fn loss_at(servers: &Servers, member: Member, commit: u64) -> Option<EventKind>
    ensures kind { result ≡ option_and_then (loss_at commit member) (slice_get servers.now member.id.number) }
    ensures comes { (cluster : Cluster) → IfSome result (MayCome cluster) }
{
    let server = servers.get(member.id.number as usize)?;
    loss_if(member, is_lacking(server, commit))
}

/// Whether a server accepts writes and lacks this commit.
fn is_lacking(server: &Server, commit: u64) -> bool
    ensures { result ≡ is_lacking commit server.now }
{
    server.writes() && !is_in(server.log(), commit)
}

/// Whether a log, if there is one, has this commit.
fn is_in(log: Option<&Wal>, commit: u64) -> bool
    ensures { result ≡ has_serial (entries_of (option_copied log.entry)) commit }
{
    match log {
        None => false,
        Some(log) => has_serial(log, commit),
    }
}

/// It is told of the server of a member, where that one lacks one of these commits. It costs time in them and in the log, and
/// fails only for want of memory.
pub fn loss_of_any(
    alloc: Global,
    servers: &Servers,
    member: Member,
    commits: &Serials,
) -> Result<Option<EventKind>, AllocError>
    ensures kind { IfOk result (λ kind. kind ≡ option_and_then (loss_of_any commits.now member) (slice_get servers.now member.id.number)) }
    ensures comes { IfOk result (λ kind. (cluster : Cluster) → IfSome kind (MayCome cluster)) }
{
    let Some(server) = servers.get(member.id.number as usize) else {
        return Ok(None);
    };
    let is_lacking = lacks_any(alloc, server.log(), commits)?;
    Ok(loss_if(member, is_lacking))
}

/// Whether a log, if there is one, lacks one of these commits. It fails only for want of memory.
fn lacks_any(alloc: Global, log: Option<&Wal>, commits: &Serials) -> Result<bool, AllocError>
    ensures { IfOk result (λ is. is ≡ lacks_in (entries_of (option_copied log.entry)) commits.now) }
{
    match log {
        None => Ok(!commits.is_empty()),
        Some(log) => lacks(log, commits, alloc),
    }
}
