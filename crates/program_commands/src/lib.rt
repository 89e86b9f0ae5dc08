//! The program's commands, carried out: scripts are read, played, served behind, drilled, drawn and printed, by whatever takes the steps of
//! a run.
#![tactic(auto)]

mod commands;

pub use commands::carry_out;
