//! Laws of the lines of tables. Each is a function without a body whose contract is what is proved.
ghost use Rattle.std.specs.Prelude.{ℕ, ◌≡◌, ◌+◌, All, List, Some, length, slice_get};
ghost use Rattle.text_table.specs.Laws.{HasRoom, lines_above, lines_around, rule_of};
ghost use Rattle.text_table.specs.Tables.{TableText, row_line, slots_of, table_lines};

/// Each line is as wide as the rules, in bytes: of ASCII texts these are characters. Of a table with a title that holds where the title has
/// room over the rule; one that hasn't makes the first line wider, as Patroni does, and is told whole.
pub fn lines_are_as_wide_as_the_rule()
    ensures { (table : TableText) → HasRoom table.title (rule_of table) → All (λ line. length line ≡ length (rule_of table)) (table_lines table) }
{}

/// Each row stands in the table once, in the order of the rows: behind the first rule, the headings and the second rule the line at a place
/// is that of the row at that place, and behind these lines there is one rule.
pub fn each_row_stands_once()
    ensures rows { (table : TableText) (place : ℕ) (row : List (List ℕ)) → slice_get table.rows place ≡ Some row
        → slice_get (table_lines table) (lines_above + place) ≡ Some (row_line (slots_of table.columns table.rows) row) }
    ensures count { (table : TableText) → length (table_lines table) ≡ length table.rows + lines_around }
{}
