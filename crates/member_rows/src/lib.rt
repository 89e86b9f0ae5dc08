//! What is told of the members of a cluster: who tells of itself, who leads, who is a synchronous standby, how far each lags, and how the
//! timelines ended.
#![tactic(auto)]

mod endings;
mod keys;
mod laws;
mod rows;
mod standbys;

pub use endings::{END_REASON, endings_of};
pub use keys::{ClusterKeys, keys_in, lag_bytes};
pub use laws::{each_member_has_one_row, rows_stand_by_name, timelines_rise};
pub use rows::{Row, declared_in, rows_of};
pub use standbys::names_standby;
