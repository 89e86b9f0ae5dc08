//! The PostgreSQL servers of a cluster: what one receives from another, rewinds to and copies, and which are in step.
#![tactic(auto)]

mod answers;
mod completing;
mod servers;

pub use answers::Rewound;
pub use servers::Servers;
