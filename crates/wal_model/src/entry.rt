//! What logs and histories hold.
use pat_base::Lsn;

/// One entry of a write-ahead log: the record of a commit. What lies between commits in PostgreSQL isn't modelled.
#[derive(Clone, Copy, Debug, PartialEq, Eq)]
pub struct Entry {
    /// The number of the commit that the entry records, and 0 for the data that the server began with.
    pub serial: u64,
    /// The timeline on which it was written, from 1.
    pub timeline: u64,
    /// How long it is, in bytes. A log ends at most at 2^63 bytes.
    pub bytes: u64,
}

/// Where a timeline was left for the next one, as a line of a timeline history file says (PostgreSQL's documentation,
/// "Continuous Archiving and Point-in-Time Recovery", under "Timelines").
#[derive(Clone, Copy, Debug, PartialEq, Eq)]
pub struct HistoryPoint {
    /// The timeline that was left, from 1.
    pub timeline: u64,
    /// The position at which it was left.
    pub at: Lsn,
}
