//! How much is generated at most.

/// So many lines are drawn at most.
pub const MOST_GENERATED: u64 = 2_400;
