//! `list`: the members of a cluster (Patroni documentation, "patronictl", "patronictl list").
ghost use Rattle.std.specs.Prelude.{◌≡◌, ◌++◌, [], ◌∷◌, IfOk, OnOk, map, string_bytes};
ghost use Rattle.member_rows.specs.Rows.{rows_of};
ghost use Rattle.patronictl.specs.Members.{cluster_title, lag_cell, lag_cell_of, member_cells, member_table, table_without_rows, timeline_cell};

use crate::lag::megabytes;
use crate::role::role_word;
use cluster_view::{Snapshot, leads};
use member_rows::{ClusterKeys, Row, keys_in, lag_bytes, names_standby, rows_of};
use pat_base::Name;
use std::alloc::{AllocError, Global};
use text_table::{Alignment, Cells, Table};

/// The table of the members that have a member key, in the order of their names.
pub(crate) fn member_table(alloc: Global, seen: &Snapshot) -> Result<Table, AllocError>
    ensures { IfOk result (λ table. table ≡ member_table seen.now) }
{
    let mut table = table_without_rows(alloc, &seen.scope())?;
    let rows = rows_of(alloc, seen)?;
    push_members(&mut table, alloc, &keys_in(seen), &rows)?;
    Ok(table)
}

/// The title and the columns of the table of a cluster of this name.
fn table_without_rows(alloc: Global, cluster: &Name) -> Result<Table, AllocError>
    ensures { IfOk result (λ table. table ≡ table_without_rows cluster.now) }
{
    let mut table = Table::new(alloc, Some(cluster_title(alloc, cluster)?));
    table.push_column(alloc, "Member", Alignment::Left)?;
    table.push_column(alloc, "Host", Alignment::Left)?;
    table.push_column(alloc, "Role", Alignment::Left)?;
    table.push_column(alloc, "State", Alignment::Left)?;
    table.push_column(alloc, "TL", Alignment::Right)?;
    table.push_column(alloc, "Lag in MB", Alignment::Right)?;
    Ok(table)
}

fn cluster_title(alloc: Global, cluster: &Name) -> Result<String, AllocError>
    ensures { IfOk result (λ title. string_bytes title ≡ cluster_title cluster.now) }
{
    let name = *cluster;
    format!(in alloc; "Cluster: {name}")
}

fn push_members(
    table: &mut Table,
    alloc: Global,
    keys: &ClusterKeys,
    rows: &[Row],
) -> Result<(), AllocError>
    ensures { OnOk result (table.new ≡ record table.old { rows = table.old.rows ++ map (member_cells keys.now) rows.now }) }
{
    for row in rows {
        table.push_row(member_cells(alloc, keys, row)?)?;
    }
    Ok(())
}

/// What the table tells of a member.
fn member_cells(alloc: Global, keys: &ClusterKeys, row: &Row) -> Result<Cells, AllocError>
    ensures { IfOk result (λ cells. cells ≡ member_cells keys.now row.now) }
{
    let standby = names_standby(keys.sync, row.member);
    let mut cells = Cells::new(alloc);
    cells.push_text(alloc, row.name.as_str())?;
    cells.push_text(alloc, row.info.host.as_str())?;
    cells.push_text(alloc, role_word(leads(row.member, keys.leader), standby))?;
    cells.push_text(alloc, row.info.state.as_str())?;
    push_timeline(&mut cells, alloc, row.info.timeline)?;
    push_lag(&mut cells, alloc, keys, row)?;
    Ok(cells)
}

/// Puts a timeline at the end, or an empty cell where it isn't known.
fn push_timeline(cells: &mut Cells, alloc: Global, timeline: Option<u64>) -> Result<(), AllocError>
    ensures { OnOk result (cells.new ≡ cells.old ++ timeline_cell timeline ∷ []) }
{
    match timeline {
        None => cells.push_text(alloc, ""),
        Some(timeline) => cells.push_number(alloc, timeline),
    }
}

/// Puts at the end how far a member lags, or an empty cell where it is the leader.
fn push_lag(
    cells: &mut Cells,
    alloc: Global,
    keys: &ClusterKeys,
    row: &Row,
) -> Result<(), AllocError>
    ensures { OnOk result (cells.new ≡ cells.old ++ lag_cell keys.now row.now ∷ []) }
{
    if leads(row.member, keys.leader) {
        return cells.push_text(alloc, "");
    }
    push_lag_of(cells, alloc, lag_bytes(keys.status, row.info.end))
}

fn push_lag_of(cells: &mut Cells, alloc: Global, lag: Option<u64>) -> Result<(), AllocError>
    ensures { OnOk result (cells.new ≡ cells.old ++ lag_cell_of lag ∷ []) }
{
    match lag {
        None => cells.push_text(alloc, "unknown"),
        Some(bytes) => cells.push_number(alloc, megabytes(bytes)),
    }
}
