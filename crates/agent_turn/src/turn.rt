//! Inputs on their way.

use crate::outputs::Outputs;
use agent_model::{Knowledge, Machine};
use pat_base::Ticks;

/// An input on its way: its moment, and what its agent knows, its machine and its outputs have come to so far. The agent's role
/// goes beside it, since a row takes that apart.
#[derive(Drop)]
pub struct Turn<'a> {
    pub moment: Ticks,
    pub knows: &'a mut Knowledge,
    pub machine: &'a mut Machine,
    pub out: &'a mut Outputs,
}
