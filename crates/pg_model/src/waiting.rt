//! What waits for acknowledgement.
use pat_base::Lsn;

/// A commit of a primary that stands in its log and isn't acknowledged to its client yet.
#[derive(Clone, Copy, Debug, PartialEq, Eq)]
pub struct Waiting {
    /// The number of the commit.
    pub serial: u64,
    /// The position behind it, which has to be confirmed by whom commits wait for.
    pub end: Lsn,
}
