//! Columns.
use crate::Alignment;
use std::marker::Model;

/// A column of a table.
#[derive(Drop)]
pub(crate) struct Column {
    heading: String,
    alignment: Alignment,
}

impl Model for Column {
    ghost use Rattle.std.specs.Prelude.{string_bytes};
    ghost use Rattle.text_table.specs.Tables.{ColumnText};

    ghost Value = { ColumnText };

    ghost view = { λ c. record { heading = string_bytes c.heading; alignment = c.alignment } };
}

impl Column {
    ghost use Rattle.std.specs.Prelude.{◌≡◌, string_bytes};
    ghost use Rattle.text_table.specs.Tables.{column};

    /// The column with this heading, whose texts stand on this side.
    pub fn new(heading: String, alignment: Alignment) -> Column
        ensures { result ≡ column (string_bytes heading) alignment }
    {
        Column { heading, alignment }
    }

    /// What stands above its cells.
    pub fn heading(&self) -> &str
        ensures { result.now ≡ self.now.heading }
    {
        self.heading.as_str()
    }

    /// On which side its texts stand.
    pub fn alignment(&self) -> Alignment
        ensures { result ≡ self.now.alignment }
    {
        self.alignment
    }
}
