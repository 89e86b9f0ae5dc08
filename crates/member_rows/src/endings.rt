//! How the timelines ended, by the history that the key store has.
ghost use Rattle.std.specs.Prelude.{◌≡◌, ◌++◌, IfOk, OnOk};
ghost use Rattle.std.specs.Option.{option_to_list};
ghost use Rattle.member_rows.specs.Endings.{ended_by, endings};

use cluster_view::Snapshot;
use std::alloc::{AllocError, Global};
use store_keys::{HistoryRow, Value};

/// Why timelines end here: no target was set for recovery, so a server was promoted at the end of its log.
pub const END_REASON: &str = "no recovery target specified";

/// How the timelines ended, in their order. It fails only for want of memory.
pub fn endings_of(alloc: Global, snapshot: &Snapshot) -> Result<Vec<HistoryRow>, AllocError>
    ensures { IfOk result (λ rows. rows.items ≡ endings snapshot.now) }
{
    let mut rows = Vec::new(alloc);
    for pair in snapshot.entries() {
        push_ending(&mut rows, &pair.1.get().value)?;
    }
    Ok(rows)
}

/// Puts the row of a value at the end, if it is one of the history.
fn push_ending(rows: &mut Vec<HistoryRow>, value: &Value) -> Result<(), AllocError>
    ensures { OnOk result (rows.new.items ≡ rows.old.items ++ option_to_list (ended_by value.now)) }
{
    match value {
        Value::History(row) => {
            rows.push(*row)?;
            Ok(())
        }
        _ => Ok(()),
    }
}
