//! A healthy primary is never demoted for another's fault: a steady leader stays so over every run that leaves it alone.
#![tactic(auto)]

mod laws;

pub use laws::runs_leave_a_steady_leader;
