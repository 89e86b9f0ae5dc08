//! The machine of a member.

use leader_key::Watchdog;
use pat_base::{Lsn, MOST_MEMBERS, Required, Ticks};
use pg_model::ServerStatus;

/// What an agent sees of synchronous replication on its server: whom commits wait for, and by member number the confirmed
/// position of each connected member: one that receives from this server.
#[derive(Clone, Copy, PartialEq, Eq)]
pub struct Replication {
    pub required: Required,
    pub confirmed_positions: [Option<Lsn>; MOST_MEMBERS],
}

/// What an agent sees of its machine, and reckons with in one input: its server, synchronous replication on it, its watchdog and
/// whether acknowledgements of other members set its deadline last, and until when it has promised not to take the leader key.
#[derive(Drop)]
pub struct Machine {
    pub server: ServerStatus,
    pub replication: Replication,
    pub watchdog: Watchdog,
    pub by_failsafe: bool,
    pub hold: Option<Ticks>,
}
