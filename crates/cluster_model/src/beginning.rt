//! How servers begin to accept writes, and how their starts and stops end.

/// How a server begins to accept writes by the order of its agent.
#[derive(Clone, Copy, PartialEq, Eq)]
pub enum Beginning {
    /// At once, on this timeline.
    AtOnce { timeline: u64 },
    /// When its start is complete.
    WithItsStart,
}

/// What a start or a stop of a primary comes to that is complete.
#[derive(Clone, Copy, PartialEq, Eq)]
pub enum Completion {
    /// It begins to accept writes, on this timeline.
    Begins { timeline: u64 },
    /// It accepts writes no longer.
    Ends,
}
