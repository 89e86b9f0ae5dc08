//! From whom servers receive, and what they confirm.
ghost use Rattle.std.specs.Prelude.{◌≡◌, ◌∷◌, [], IfSome, Some, slice_get, map};
ghost use Rattle.cluster_model.specs.State.{Cluster};
ghost use Rattle.world_model.specs.Comes.{MayCome};
ghost use Rattle.cluster_model.specs.Streaming.{link_of_members, source_at, source_named, source_for, source_of, confirm_of, is_confirmed, unconfirmed_end};

use event_book::{Link, LinkEnd, Member};
use pat_base::{Lsn, ServerId, State};
use pg_cluster::Servers;
use pg_model::Server;
use world_fields::links::CutLinks;

/// The member from whose server that of this member receives: it is a replica whose log didn't diverge, its upstream
/// accepts writes, and the link between the two is joined.
pub fn source_of(
    members: &[Member],
    servers: &Servers,
    cuts: &CutLinks,
    member: Member,
) -> Option<Member>
    ensures { result ≡ source_of members.now servers.now cuts.now member }
{
    let server = servers.get(member.id.number as usize)?;
    match server.state() {
        State::Replica if !server.diverged() => {
            source_named(members, servers, cuts, member, server.upstream())
        }
        _ => None,
    }
}

fn source_named(
    members: &[Member],
    servers: &Servers,
    cuts: &CutLinks,
    member: Member,
    upstream: Option<ServerId>,
) -> Option<Member>
    ensures { result ≡ source_named members.now servers.now cuts.now member upstream }
{
    let place = upstream?.number as usize;
    let from = *members.get(place)?;
    let server = servers.get(place)?;
    if server.writes() && !cuts.is_cut(link_of_members(member, from)) {
        Some(from)
    } else {
        None
    }
}

/// The link between two members.
pub fn link_of_members(member: Member, other: Member) -> Link
    ensures { result ≡ link_of_members member other }
{
    Link {
        first: LinkEnd::Member(member),
        second: LinkEnd::Member(other),
    }
}

/// The end of the log of a member's server, where it isn't what was confirmed to the server of another one.
pub fn unconfirmed_end(servers: &Servers, member: Member, from: Member) -> Option<Lsn>
    ensures { result ≡ unconfirmed_end member (slice_get servers.now member.id.number) (slice_get servers.now from.id.number) }
{
    let server = servers.get(member.id.number as usize)?;
    let upstream = servers.get(from.id.number as usize)?;
    let end = server.log()?.end();
    if is_confirmed(end, upstream.confirmed(member.id)) {
        None
    } else {
        Some(end)
    }
}

fn is_confirmed(end: Lsn, confirmed: Option<Lsn>) -> bool
    ensures { result ≡ is_confirmed end confirmed }
{
    match confirmed {
        None => false,
        Some(confirmed) => confirmed.position == end.position,
    }
}
