//! Fields of the world by themselves, and what is told of each: links and what comes over them, members and their machines, watchdogs, what answers of the key store carry, and acknowledged commits that a server lacks.
#![tactic(auto)]

pub mod acknowledging;
pub mod deliveries;
pub mod links;
pub mod losing;
pub mod machines;
pub mod members;
pub mod naming;
pub mod snapshots;
pub mod watchdogs;
pub mod writing;
