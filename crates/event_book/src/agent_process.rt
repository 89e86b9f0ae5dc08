//! What a book leaves of an agent.

/// Whether the agent of a member runs, whether it is suspended, and the number of its incarnation, which is 1 at first and grows
/// by one with each start. Only an agent that runs is suspended.
#[derive(Clone, Copy, PartialEq, Eq)]
pub struct AgentProcess {
    pub running: bool,
    pub suspended: bool,
    pub incarnation: u64,
}
