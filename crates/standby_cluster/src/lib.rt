//! What a standby cluster is made of (Patroni's documentation, "Standby cluster"): the remote primary that its servers
//! follow, and the leader key as its leader holds it, who never writes on it.
#![tactic(auto)]

mod holding;
mod laws;
mod remote;

pub use holding::StandbyLease;
pub use laws::{a_copy_is_behind, supplies_leave_all_behind, who_pulls_stays_behind};
pub use remote::{Remote, copy_from, pull};
