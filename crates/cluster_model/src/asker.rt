//! Who asks something of an agent.

/// Who asks something of an agent.
#[derive(Clone, Copy, PartialEq, Eq)]
pub enum Asker {
    /// A line `rest` of a script: where the agent doesn't run or is suspended, the run notes that it gives no answer.
    Line,
    /// A connection: it is told so, as 503 `No agent` (RFC 9110, "503 Service Unavailable").
    Connection,
}
