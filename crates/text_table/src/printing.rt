//! The lines of a table.
ghost use Rattle.std.specs.Prelude.{◌≡◌, ◌<◌, ◌++◌, IfOk, OnOk, map, option_map, string_bytes, replicate};
ghost use Rattle.std.specs.Str.{IsAscii};
ghost use Rattle.text_table.specs.Tables.{aligned, cell_text, row_line, dashes, rule_line, top_line, headings};

use crate::column::Column;
use crate::cutting::titled;
use crate::slot::Slot;
use crate::{Alignment, Cells};
use std::alloc::{AllocError, Global};

/// The headings of the columns, as cells.
pub(crate) fn heading_cells(alloc: Global, columns: &[Column]) -> Result<Cells, AllocError>
    ensures { IfOk result (λ cells. cells ≡ headings columns.now) }
{
    let mut cells = Cells::new(alloc);
    for column in columns {
        cells.push_text(alloc, column.heading())?;
    }
    Ok(cells)
}

/// Puts the lines of these rows at the end.
pub(crate) fn push_rows(
    lines: &mut Vec<String>,
    alloc: Global,
    slots: &[Slot],
    rows: &[Cells],
) -> Result<(), AllocError>
    ensures { OnOk result (map string_bytes lines.new.items ≡ map string_bytes lines.old.items ++ map (row_line slots.now) rows.now) }
{
    for row in rows {
        lines.push(row_line(alloc, slots, row)?)?;
    }
    Ok(())
}

/// The line of a row: its cells between bars.
pub(crate) fn row_line(alloc: Global, slots: &[Slot], row: &Cells) -> Result<String, AllocError>
    ensures { IfOk result (λ line. string_bytes line ≡ row_line slots.now row.now) }
{
    let mut line = String::from_str(alloc, "|")?;
    for (place, slot) in slots.iter().enumerate() {
        push_cell(&mut line, slot, row.cell(place))?;
    }
    Ok(line)
}

/// Puts a cell at the end, with a space on both sides and the bar behind it.
fn push_cell(line: &mut String, slot: &Slot, text: &str) -> Result<(), AllocError>
    ensures { OnOk result (string_bytes line.new ≡ string_bytes line.old ++ cell_text slot.now text.now) }
{
    line.push_str(" ")?;
    push_aligned(line, slot, text)?;
    line.push_str(" |")
}

/// Puts a text at the end, on its side of the column.
fn push_aligned(line: &mut String, slot: &Slot, text: &str) -> Result<(), AllocError>
    ensures { OnOk result (string_bytes line.new ≡ string_bytes line.old ++ aligned slot.now text.now) }
{
    let space = slot.width.saturating_sub(text.len());
    match slot.alignment {
        Alignment::Left => {
            line.push_str(text)?;
            push_copies(line, ' ', space)
        }
        Alignment::Right => {
            push_copies(line, ' ', space)?;
            line.push_str(text)
        }
    }
}

/// Puts a sign at the end, so many times.
fn push_copies(line: &mut String, sign: char, count: usize) -> Result<(), AllocError>
    requires { sign < 128 }
    ensures { OnOk result (string_bytes line.new ≡ string_bytes line.old ++ replicate count sign) }
{
    for _step in 0..count {
        line.push(sign)?;
    }
    Ok(())
}

/// A rule, from the first bar to the last.
pub(crate) fn rule_line(alloc: Global, slots: &[Slot]) -> Result<String, AllocError>
    ensures rule { IfOk result (λ line. string_bytes line ≡ rule_line slots.now) }
    ensures ascii { IfOk result (λ line. IsAscii (string_bytes line)) }
{
    let mut line = String::from_str(alloc, "+")?;
    for slot in slots {
        push_dashes(&mut line, slot)?;
    }
    Ok(line)
}

/// Puts the part of a rule at the end that a column has.
fn push_dashes(line: &mut String, slot: &Slot) -> Result<(), AllocError>
    ensures { OnOk result (string_bytes line.new ≡ string_bytes line.old ++ dashes slot.now) }
{
    line.push_str("-")?;
    push_copies(line, '-', slot.width)?;
    line.push_str("-+")
}

/// The first line: a rule, with the title over it where there is one.
pub(crate) fn top_line(
    alloc: Global,
    title: &Option<String>,
    slots: &[Slot],
) -> Result<String, AllocError>
    ensures { IfOk result (λ line. string_bytes line ≡ top_line (option_map string_bytes title.now) slots.now) }
{
    let rule = rule_line(alloc, slots)?;
    match title {
        None => Ok(rule),
        Some(title) => titled(alloc, title.as_str(), rule.as_str()),
    }
}
