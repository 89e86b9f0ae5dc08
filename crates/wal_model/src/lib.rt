//! Write-ahead logs as lists of entries, and the histories of timelines.
#![tactic(auto)]

mod entry;
mod history;
mod lacking;
mod laws;
mod piece;
mod pieces;
mod placed;
mod run;
mod serial_run;
mod serials;
mod wal;

pub use entry::{Entry, HistoryPoint};
pub use history::History;
pub use lacking::{has_serial, lacks};
pub use laws::{commits_are_looked_up, common_is_longest, common_is_prefix, prefix_is_common};
pub use serials::Serials;
pub use wal::{Wal, WalFault};
