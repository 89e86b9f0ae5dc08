//! Tables.
use crate::column::Column;
use crate::layout::slots_of;
use crate::printing::{heading_cells, push_rows, row_line, rule_line, top_line};
use crate::{Alignment, Cells};
use std::alloc::{AllocError, Global};
use std::marker::Model;

/// A table: columns, rows of cells, and a title where it has one.
#[derive(Drop)]
pub struct Table {
    title: Option<String>,
    columns: Vec<Column>,
    rows: Vec<Cells>,
}

impl Model for Table {
    ghost use Rattle.std.specs.Prelude.{option_map, string_bytes};
    ghost use Rattle.text_table.specs.Tables.{TableText};

    ghost Value = { TableText };

    ghost view = { λ t. record { title = option_map string_bytes t.title; columns = t.columns.items; rows = t.rows.items } };
}

impl Table {
    ghost use Rattle.std.specs.Prelude.{◌≡◌, [], ◌∷◌, ◌++◌, IfOk, OnOk, map, option_map, string_bytes};
    ghost use Rattle.text_table.specs.Tables.{column, table_lines};

    /// A table without columns and rows.
    pub fn new(alloc: Global, title: Option<String>) -> Table
        ensures { result ≡ record { title = option_map string_bytes title; columns = []; rows = [] } }
    {
        Table {
            title,
            columns: Vec::new(alloc),
            rows: Vec::new(alloc),
        }
    }

    /// Puts a column behind the others. It fails only for want of memory, as each of these.
    pub fn push_column(
        &mut self,
        alloc: Global,
        heading: &str,
        alignment: Alignment,
    ) -> Result<(), AllocError>
        ensures { OnOk result (self.new ≡ record self.old { columns = self.old.columns ++ column heading.now alignment ∷ [] }) }
    {
        let heading = String::from_str(alloc, heading)?;
        self.columns.push(Column::new(heading, alignment))?;
        Ok(())
    }

    /// Puts a row below the others. Cells past the last column aren't shown, and where a row has fewer, the others are empty.
    pub fn push_row(&mut self, cells: Cells) -> Result<(), AllocError>
        ensures { OnOk result (self.new ≡ record self.old { rows = self.old.rows ++ cells ∷ [] }) }
    {
        self.rows.push(cells)?;
        Ok(())
    }

    /// The lines of the table, without line feeds: a rule, over which the title stands; the headings; a rule; a line for each row; and a
    /// rule. Each column is as wide as its heading or its widest cell, in bytes, which are characters where the texts are ASCII.
    pub fn lines(&self, alloc: Global) -> Result<Vec<String>, AllocError>
        ensures { IfOk result (λ lines. map string_bytes lines.items ≡ table_lines self.now) }
    {
        let slots = slots_of(alloc, &self.columns, &self.rows)?;
        let headings = heading_cells(alloc, &self.columns)?;
        let mut lines = Vec::new(alloc);
        lines.push(top_line(alloc, &self.title, &slots)?)?;
        lines.push(row_line(alloc, &slots, &headings)?)?;
        lines.push(rule_line(alloc, &slots)?)?;
        push_rows(&mut lines, alloc, &slots, &self.rows)?;
        lines.push(rule_line(alloc, &slots)?)?;
        Ok(lines)
    }
}
