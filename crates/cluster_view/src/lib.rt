//! What the key store tells agents in one read of it, and what agents show of themselves.
#![tactic(auto)]

mod key_values;
mod naming;
mod snapshot;
mod view;

pub use key_values::info_by;
pub use naming::{candidate_of, is_candidate, is_failover_to, is_named, is_standby, leads};
pub use snapshot::{LeaderEntry, Snapshot};
pub use view::{AgentView, LeaderView, RoleWord};
