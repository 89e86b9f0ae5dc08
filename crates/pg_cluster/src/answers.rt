//! What the calls of the servers answer.
use pat_base::Lsn;

/// What a rewound server kept of its log: so many entries, which end at this position.
#[derive(Clone, Copy, Debug, PartialEq, Eq)]
pub struct Rewound {
    pub kept: u64,
    pub at: Lsn,
}
