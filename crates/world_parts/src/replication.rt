//! Synchronous replication, as agents find it on their servers.
ghost use Rattle.std.specs.Prelude.{◌≡◌, if◌then◌else◌, option_map, slice_get};
ghost use Rattle.pat_base.specs.ServerState.{writes};
ghost use Rattle.cluster_model.specs.Machines.{connected_end, connected_ends, is_connected, is_source, nothing_confirmed, replication_of};

use crate::sources::source_of;
use agent_model::Replication;
use event_book::Member;
use pat_base::{Lsn, MOST_MEMBERS, MemberId};
use pg_cluster::Servers;
use pg_model::Server;
use world_fields::links::CutLinks;

/// Whom the commits of a member's server wait for, and how far each connected member has confirmed. `None` exactly where there is
/// no server.
pub fn replication_of(
    members: &[Member],
    servers: &Servers,
    cuts: &CutLinks,
    member: Member,
) -> Option<Replication>
    ensures { result ≡ option_map (replication_of members.now servers.now cuts.now member) (slice_get servers.now member.id.number) }
{
    let server = servers.get(member.id.number as usize)?;
    Some(Replication {
        required: server.required(),
        confirmed_positions: confirmed_to(members, servers, cuts, member, server),
    })
}

/// By member number, how far each connected member has confirmed to this server of a member. To one that accepts no writes nobody is
/// connected, and then it isn't looked who receives.
fn confirmed_to(
    members: &[Member],
    servers: &Servers,
    cuts: &CutLinks,
    member: Member,
    server: &Server,
) -> [Option<Lsn>; MOST_MEMBERS]
    ensures { result ≡ (if writes server.now.state then connected_ends members.now servers.now cuts.now member server.now.confirmed else nothing_confirmed) }
{
    if server.writes() {
        connected_ends(members, servers, cuts, member, server)
    } else {
        [None; MOST_MEMBERS]
    }
}

/// By member number, how far each connected member has confirmed to this server of a member.
fn connected_ends(
    members: &[Member],
    servers: &Servers,
    cuts: &CutLinks,
    member: Member,
    server: &Server,
) -> [Option<Lsn>; MOST_MEMBERS]
    ensures { result ≡ connected_ends members.now servers.now cuts.now member server.now.confirmed }
{
    let mut ends = [None; MOST_MEMBERS];
    for number in 0..MOST_MEMBERS as u8 {
        let by = MemberId { number };
        ends[number as usize] = connected_end(members, servers, cuts, member, server, by);
    }
    ends
}

/// How far a member has confirmed to this server of another one, where it is connected to it.
fn connected_end(
    members: &[Member],
    servers: &Servers,
    cuts: &CutLinks,
    member: Member,
    server: &Server,
    by: MemberId,
) -> Option<Lsn>
    ensures { result ≡ connected_end members.now servers.now cuts.now member server.now.confirmed by.number }
{
    if is_connected(members, servers, cuts, member, by) {
        server.confirmed(by)
    } else {
        None
    }
}

/// Whether the server of a member is connected to that of another one: it receives from it.
fn is_connected(
    members: &[Member],
    servers: &Servers,
    cuts: &CutLinks,
    member: Member,
    by: MemberId,
) -> bool
    ensures { result ≡ is_connected members.now servers.now cuts.now member (slice_get members.now by.number) }
{
    match members.get(by.number as usize) {
        None => false,
        Some(other) => is_source(member, source_of(members, servers, cuts, *other)),
    }
}

/// Whether this member is the one from which another one receives, if there is such a one.
fn is_source(member: Member, from: Option<Member>) -> bool
    ensures { result ≡ is_source member from }
{
    match from {
        None => false,
        Some(from) => from.id == member.id,
    }
}
