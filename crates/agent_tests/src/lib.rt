//! Worked inputs of an agent: what no clause says.
#![tactic(auto)]

#[cfg(test)]
mod agents;
