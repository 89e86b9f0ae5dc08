//! Cells.
use std::alloc::{AllocError, Global};
use std::marker::Model;

/// The cells of one line of a table, from left to right.
#[derive(Drop)]
pub struct Cells {
    cells: Vec<String>,
}

impl Model for Cells {
    ghost use Rattle.std.specs.Prelude.{ℕ, List, map, string_bytes};

    ghost Value = { List (List ℕ) };

    ghost view = { λ c. map string_bytes c.cells.items };
}

impl Cells {
    ghost use Rattle.std.specs.Prelude.{◌≡◌, [], ◌∷◌, ◌++◌, OnOk, string_bytes};
    ghost use Rattle.std.specs.Fmt.{decimal};
    ghost use Rattle.text_table.specs.Tables.{cell_at};

    /// A line without cells.
    pub fn new(alloc: Global) -> Cells
        ensures { result ≡ [] }
    {
        Cells {
            cells: Vec::new(alloc),
        }
    }

    /// Puts a cell at the end. It fails only for want of memory, as each of these.
    fn push(&mut self, cell: String) -> Result<(), AllocError>
        ensures { OnOk result (self.new ≡ self.old ++ string_bytes cell ∷ []) }
    {
        self.cells.push(cell)?;
        Ok(())
    }

    /// Puts a cell with this text at the end.
    pub fn push_text(&mut self, alloc: Global, text: &str) -> Result<(), AllocError>
        ensures { OnOk result (self.new ≡ self.old ++ text.now ∷ []) }
    {
        self.push(String::from_str(alloc, text)?)
    }

    /// Puts a cell with this number at the end.
    pub fn push_number(&mut self, alloc: Global, number: u64) -> Result<(), AllocError>
        ensures { OnOk result (self.new ≡ self.old ++ decimal number ∷ []) }
    {
        self.push(format!(in alloc; "{number}")?)
    }

    /// The text of the cell at a place, empty where the line has none there.
    pub fn cell(&self, place: usize) -> &str
        ensures { result.now ≡ cell_at self.now place }
    {
        match self.cells.get(place) {
            Some(cell) => cell.as_str(),
            None => "",
        }
    }
}
