//! `/cluster`: the members of a cluster (Patroni documentation, "Patroni REST API", "Cluster status endpoints").
ghost use Rattle.std.specs.Prelude.{◌≡◌, IfOk, OnOk, map, string_bytes};
ghost use Rattle.serde_json.specs.Data.{object};
ghost use Rattle.serde_json.specs.Written.{compact_text};
ghost use Rattle.json_build.specs.Lists.{list_items};
ghost use Rattle.json_build.specs.Objects.{object_members};
ghost use Rattle.member_rows.specs.Keys.{keys_in};
ghost use Rattle.rest_pages.specs.Cluster.{member_role, with_lag, with_lag_of, with_timeline, row_members, row_data, cluster_rows, cluster_members};

use cluster_view::{Snapshot, leads};
use json_build::{List, Object};
use member_rows::{ClusterKeys, Row, keys_in, lag_bytes, names_standby, rows_of};
use pat_base::MemberId;
use std::alloc::{AllocError, Global};

/// The body of `/cluster`: `members`, a list of those with a member key, in the order of their names; `pause`, where the cluster is
/// paused; and `scope`, its name. Each member has its `host`, its `name`, its `role` (`leader`, `sync_standby` where the sync key names it,
/// else `replica`), its `state`, its `timeline` where that is known, and, but for the leader, its `lag`: how many bytes its log ends behind
/// the position that the leader told last, 0 where it is ahead or the leader told none yet, and `unknown` where the member has no
/// position. It fails only for want of memory.
pub fn cluster_text(alloc: Global, snapshot: &Snapshot) -> Result<String, AllocError>
    ensures { IfOk result (λ text. string_bytes text ≡ compact_text (object (cluster_members snapshot.now))) }
{
    let scope = snapshot.scope();
    let mut members = Object::new(alloc);
    members.put_list(alloc, "members", member_list(alloc, snapshot)?)?;
    members.put_flag(alloc, "pause", snapshot.config().pause)?;
    members.put_text(alloc, "scope", scope.as_str())?;
    members.into_text(alloc)
}

fn member_list(alloc: Global, snapshot: &Snapshot) -> Result<List, AllocError>
    ensures { IfOk result (λ list. list_items list ≡ cluster_rows snapshot.now) }
{
    let rows = rows_of(alloc, snapshot)?;
    row_list(alloc, &keys_in(snapshot), &rows)
}

fn row_list(alloc: Global, keys: &ClusterKeys, rows: &[Row]) -> Result<List, AllocError>
    ensures { IfOk result (λ list. list_items list ≡ map (row_data keys.now) rows.now) }
{
    let mut list = List::new(alloc);
    for row in rows {
        list.push_object(row_object(alloc, keys, row)?)?;
    }
    Ok(list)
}

fn row_object(alloc: Global, keys: &ClusterKeys, row: &Row) -> Result<Object, AllocError>
    ensures { IfOk result (λ members. object_members members ≡ row_members keys.now row.now) }
{
    let mut members = Object::new(alloc);
    members.put_text(alloc, "host", row.info.host.as_str())?;
    put_lag(&mut members, alloc, keys, row)?;
    members.put_text(alloc, "name", row.name.as_str())?;
    members.put_text(alloc, "role", member_role(keys, row.member))?;
    members.put_text(alloc, "state", row.info.state.as_str())?;
    put_timeline(&mut members, alloc, row.info.timeline)?;
    Ok(members)
}

/// The role of a member.
fn member_role(keys: &ClusterKeys, member: MemberId) -> &'static str
    ensures { result.now ≡ member_role keys.now member }
{
    if leads(member, keys.leader) {
        "leader"
    } else if names_standby(keys.sync, member) {
        "sync_standby"
    } else {
        "replica"
    }
}

/// Puts how far a member lags, where it isn't the leader.
fn put_lag(
    members: &mut Object,
    alloc: Global,
    keys: &ClusterKeys,
    row: &Row,
) -> Result<(), AllocError>
    ensures { OnOk result (object_members members.new ≡ with_lag keys.now row.now (object_members members.old)) }
{
    if leads(row.member, keys.leader) {
        return Ok(());
    }
    put_lag_of(members, alloc, lag_bytes(keys.status, row.info.end))
}

/// Puts a lag in bytes, or that it isn't known.
fn put_lag_of(members: &mut Object, alloc: Global, lag: Option<u64>) -> Result<(), AllocError>
    ensures { OnOk result (object_members members.new ≡ with_lag_of lag (object_members members.old)) }
{
    match lag {
        Some(lag) => members.put_number(alloc, "lag", lag),
        None => members.put_text(alloc, "lag", "unknown"),
    }
}

/// Puts a timeline, where it is known.
fn put_timeline(
    members: &mut Object,
    alloc: Global,
    timeline: Option<u64>,
) -> Result<(), AllocError>
    ensures { OnOk result (object_members members.new ≡ with_timeline timeline (object_members members.old)) }
{
    match timeline {
        None => Ok(()),
        Some(timeline) => members.put_number(alloc, "timeline", timeline),
    }
}
