//! `history`: how the timelines ended (Patroni documentation, "patronictl", "patronictl history").
ghost use Rattle.std.specs.Prelude.{◌≡◌, ◌++◌, IfOk, OnOk, map};
ghost use Rattle.patronictl.specs.History.{history_cells, history_table, history_without_rows};

use crate::names::name_in;
use cluster_view::Snapshot;
use member_rows::{END_REASON, endings_of};
use std::alloc::{AllocError, Global};
use store_keys::HistoryRow;
use text_table::{Alignment, Cells, Table};

/// The table of the timelines that ended, in their order.
pub(crate) fn history_table(alloc: Global, seen: &Snapshot) -> Result<Table, AllocError>
    ensures { IfOk result (λ table. table ≡ history_table seen.now) }
{
    let mut table = history_without_rows(alloc)?;
    let rows = endings_of(alloc, seen)?;
    push_endings(&mut table, alloc, seen, &rows)?;
    Ok(table)
}

/// The columns of the table.
fn history_without_rows(alloc: Global) -> Result<Table, AllocError>
    ensures { IfOk result (λ table. table ≡ history_without_rows) }
{
    let mut table = Table::new(alloc, None);
    table.push_column(alloc, "TL", Alignment::Right)?;
    table.push_column(alloc, "LSN", Alignment::Right)?;
    table.push_column(alloc, "Reason", Alignment::Left)?;
    table.push_column(alloc, "Timestamp", Alignment::Left)?;
    table.push_column(alloc, "New Leader", Alignment::Left)?;
    Ok(table)
}

fn push_endings(
    table: &mut Table,
    alloc: Global,
    seen: &Snapshot,
    rows: &[HistoryRow],
) -> Result<(), AllocError>
    ensures { OnOk result (table.new ≡ record table.old { rows = table.old.rows ++ map (history_cells seen.now) rows.now }) }
{
    for row in rows {
        table.push_row(history_cells(alloc, seen, row)?)?;
    }
    Ok(())
}

/// What the table tells of the end of a timeline: its number, where in bytes, why and at which tick of 100 ms it ended, and who took over.
fn history_cells(alloc: Global, seen: &Snapshot, row: &HistoryRow) -> Result<Cells, AllocError>
    ensures { IfOk result (λ cells. cells ≡ history_cells seen.now row.now) }
{
    let leader = name_in(alloc, seen, row.leader)?;
    let mut cells = Cells::new(alloc);
    cells.push_number(alloc, row.timeline)?;
    cells.push_number(alloc, row.at.position)?;
    cells.push_text(alloc, END_REASON)?;
    cells.push_number(alloc, row.tick.0)?;
    cells.push_text(alloc, leader.as_str())?;
    Ok(cells)
}
