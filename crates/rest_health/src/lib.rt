//! The health checks of the REST interface: by which facts of a member each path is healthy.
#![tactic(auto)]

mod endpoint;
mod facts;
mod laws;
mod status;
mod tables;

pub use endpoint::Endpoint;
pub use facts::{
    FRESH_AS_PRIMARY, FRESH_OTHERWISE, Facts, HAS_KEY, NO_LOAD_BALANCE, PRIMARY, REPLICA, STANDBY,
    WITHIN_LAG,
};
pub use laws::{
    paths_for_primaries, paths_for_probes, paths_for_reading, paths_for_replicas,
    reading_includes_the_primary, whoever_serves_as_primary_is_no_replica,
};
pub use status::{OK, UNAVAILABLE, health};
