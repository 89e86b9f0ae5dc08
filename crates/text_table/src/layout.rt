//! How wide columns are.
ghost use Rattle.std.specs.Prelude.{◌≡◌, IfOk, fold};
ghost use Rattle.text_table.specs.Tables.{wider, column_width, slot_of, slots_of};

use crate::Cells;
use crate::column::Column;
use crate::slot::Slot;
use std::alloc::{AllocError, Global};

/// The places of the columns of a table with these rows.
pub(crate) fn slots_of(
    alloc: Global,
    columns: &[Column],
    rows: &[Cells],
) -> Result<Vec<Slot>, AllocError>
    ensures { IfOk result (λ slots. slots.items ≡ slots_of columns.now rows.now) }
{
    let mut slots = Vec::new(alloc);
    for (place, column) in columns.iter().enumerate() {
        slots.push(slot_of(place, column, rows))?;
    }
    Ok(slots)
}

fn slot_of(place: usize, column: &Column, rows: &[Cells]) -> Slot
    ensures { result ≡ slot_of place column.now rows.now }
{
    Slot {
        width: column_width(place, column, rows),
        alignment: column.alignment(),
    }
}

/// The width of a heading or of the widest cell below it.
fn column_width(place: usize, column: &Column, rows: &[Cells]) -> usize
    ensures { result ≡ column_width place column.now rows.now }
{
    let width = column.heading().len();
    rows.iter()
        .fold(width, |width, row| wider(place, width, row))
}

/// The width, or that of the row's cell at this place where that is more.
fn wider(place: usize, width: usize, row: &Cells) -> usize
    ensures { result ≡ wider place width row.now }
{
    width.max(row.cell(place).len())
}
