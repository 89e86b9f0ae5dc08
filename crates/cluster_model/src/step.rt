//! Steps of a run.
use pat_base::MemberId;
use rest_answer::Refusal;
use rest_message::Request;
use script_model::Command;

/// A step of a run: one tick of a `run` or `tick` line, another line of a script's body, or what a connection brings.
#[derive(Drop)]
pub enum Step {
    /// One tick of the default schedule.
    Scheduled,
    /// One bare tick.
    Tick,
    /// What another line asks for.
    Command(Command),
    /// What a connection to the REST interface of this member's agent brings.
    Connection(MemberId, Visit),
}

/// What a connection to the REST interface of an agent brings.
#[derive(Drop)]
pub enum Visit {
    /// A request to the agent.
    Request(Request),
    /// A reply that the agent has no part in.
    Refusal(Refusal),
    /// A read or a write of the connection failed.
    Failure,
}
