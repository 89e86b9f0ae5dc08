//! `/history`: how the timelines ended (Patroni documentation, "Patroni REST API", "Cluster status endpoints").
ghost use Rattle.std.specs.Prelude.{◌≡◌, map, IfOk, OnOk, string_bytes};
ghost use Rattle.serde_json.specs.Data.{array};
ghost use Rattle.serde_json.specs.View.{items_of};
ghost use Rattle.serde_json.specs.Written.{compact_text};
ghost use Rattle.json_build.specs.Lists.{list_items};
ghost use Rattle.rest_pages.specs.History.{with_leader, ending_items, ending_data, history_items};

use cluster_view::Snapshot;
use json_build::List;
use member_rows::{END_REASON, declared_in, endings_of};
use pat_base::{Host, Name};
use std::alloc::{AllocError, Global};
use store_keys::HistoryRow;

/// The body of `/history`: for each timeline that ended, in their order, a list of its number, the position in bytes at which it ended,
/// the reason, the tick of 100 ms at which it ended, and the name of the leader that took over, where the cluster has such a member. It
/// fails only for want of memory.
pub fn history_text(alloc: Global, snapshot: &Snapshot) -> Result<String, AllocError>
    ensures { IfOk result (λ text. string_bytes text ≡ compact_text (array (items_of (history_items snapshot.now)))) }
{
    history_list(alloc, snapshot)?.into_text(alloc)
}

fn history_list(alloc: Global, snapshot: &Snapshot) -> Result<List, AllocError>
    ensures { IfOk result (λ list. list_items list ≡ history_items snapshot.now) }
{
    let rows = endings_of(alloc, snapshot)?;
    row_list(alloc, snapshot, &rows)
}

fn row_list(alloc: Global, snapshot: &Snapshot, rows: &[HistoryRow]) -> Result<List, AllocError>
    ensures { IfOk result (λ list. list_items list ≡ map (ending_data snapshot.now) rows.now) }
{
    let mut list = List::new(alloc);
    for row in rows {
        list.push_list(ending_list(alloc, snapshot, row)?)?;
    }
    Ok(list)
}

fn ending_list(alloc: Global, snapshot: &Snapshot, row: &HistoryRow) -> Result<List, AllocError>
    ensures { IfOk result (λ list. list_items list ≡ ending_items snapshot.now row.now) }
{
    let mut list = List::new(alloc);
    list.push_number(row.timeline)?;
    list.push_number(row.at.position)?;
    list.push_text(alloc, END_REASON)?;
    list.push_number(row.tick.0)?;
    push_leader(&mut list, alloc, declared_in(snapshot, row.leader))?;
    Ok(list)
}

/// Puts the name of a leader at the end, if there is such a member.
fn push_leader(
    list: &mut List,
    alloc: Global,
    leader: Option<(Name, Host)>,
) -> Result<(), AllocError>
    ensures { OnOk result (list_items list.new ≡ with_leader (list_items list.old) leader) }
{
    match leader {
        None => Ok(()),
        Some((name, _)) => list.push_text(alloc, name.as_str()),
    }
}
