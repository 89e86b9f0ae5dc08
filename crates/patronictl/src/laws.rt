//! Laws of what commands print. Each is a function without a body whose contract is what is proved.
ghost use Rattle.std.specs.Prelude.{ℕ, ◌≡◌, ◌+◌, ◌*◌, ◌%◌, ◌≤◌, All, IsSortedBy, Some, count_by, length, slice_get};
ghost use Rattle.pat_base.specs.declared.host.Host.{Host};
ghost use Rattle.pat_base.specs.declared.member_id.MemberId.{MemberId};
ghost use Rattle.pat_base.specs.declared.name.Name.{Name};
ghost use Rattle.store_keys.specs.declared.value.HistoryRow.{HistoryRow};
ghost use Rattle.store_keys.specs.declared.value.MemberInfo.{MemberInfo};
ghost use Rattle.cluster_view.specs.Snapshots.{SnapshotFacts};
ghost use Rattle.member_rows.specs.Endings.{endings};
ghost use Rattle.member_rows.specs.Laws.{is_row_of};
ghost use Rattle.cluster_view.specs.KeyValues.{info_in};
ghost use Rattle.member_rows.specs.Rows.{declared_in, is_before, rows_of};
ghost use Rattle.member_rows.specs.declared.rows.Row.{Row};
ghost use Rattle.text_table.specs.Laws.{lines_above, lines_around, rule_of};
ghost use Rattle.text_table.specs.Tables.{table_lines};
ghost use Rattle.patronictl.specs.History.{history_table};
ghost use Rattle.patronictl.specs.Lags.{megabytes};
ghost use Rattle.patronictl.specs.Laws.{history_line, member_line};
ghost use Rattle.patronictl.specs.Members.{member_table};
ghost use Rattle.patronictl.specs.declared.lag.TheConstants.{MEGABYTE};

/// Each line of a table is as wide as its rule: over the table of members there is always room for the title. All names, hosts and numbers
/// are ASCII, so a line has as many characters as bytes.
pub fn lines_are_as_wide_as_the_rule()
    ensures members { (seen : SnapshotFacts) → All (λ line. length line ≡ length (rule_of (member_table seen))) (table_lines (member_table seen)) }
    ensures endings { (seen : SnapshotFacts) → All (λ line. length line ≡ length (rule_of (history_table seen))) (table_lines (history_table seen)) }
{}

/// Each member of the cluster with a member key has just one row, the rows stand in the byte order of their names, and the lines of the table
/// between the second rule and the last are those of the rows, in their order.
pub fn each_member_stands_once()
    ensures once { (seen : SnapshotFacts) (member : MemberId) (declared : Name × Host) (info : MemberInfo)
        → declared_in seen member ≡ Some declared → info_in seen member ≡ Some info
        → count_by (is_row_of member) (rows_of seen) ≡ 1 }
    ensures by_name { (seen : SnapshotFacts) → IsSortedBy is_before (rows_of seen) }
    ensures lines { (seen : SnapshotFacts) (place : ℕ) (row : Row) → slice_get (rows_of seen) place ≡ Some row
        → slice_get (table_lines (member_table seen)) (lines_above + place) ≡ Some (member_line seen row) }
    ensures no_others { (seen : SnapshotFacts) → length (table_lines (member_table seen)) ≡ length (rows_of seen) + lines_around }
{}

/// The lines of the table of the history between the second rule and the last are those of the timelines that ended, in their order.
pub fn each_ending_stands_once()
    ensures lines { (seen : SnapshotFacts) (place : ℕ) (row : HistoryRow) → slice_get (endings seen) place ≡ Some row
        → slice_get (table_lines (history_table seen)) (lines_above + place) ≡ Some (history_line seen row) }
    ensures no_others { (seen : SnapshotFacts) → length (table_lines (history_table seen)) ≡ length (endings seen) + lines_around }
{}

/// A lag is told to the nearest megabyte: it is off by half of one at most, and where it is off by just that, an even number is told.
pub fn lags_are_to_the_nearest()
    ensures not_above { (bytes : ℕ) → 2 * (MEGABYTE * megabytes bytes) ≤ 2 * bytes + MEGABYTE }
    ensures not_below { (bytes : ℕ) → 2 * bytes ≤ 2 * (MEGABYTE * megabytes bytes) + MEGABYTE }
    ensures even_above { (bytes : ℕ) → 2 * (MEGABYTE * megabytes bytes) ≡ 2 * bytes + MEGABYTE → megabytes bytes % 2 ≡ 0 }
    ensures even_below { (bytes : ℕ) → 2 * bytes ≡ 2 * (MEGABYTE * megabytes bytes) + MEGABYTE → megabytes bytes % 2 ≡ 0 }
{}
