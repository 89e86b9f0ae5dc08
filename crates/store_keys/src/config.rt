//! What a configuration sets.
ghost use Rattle.std.specs.Prelude.{◌≡◌, ◌≤◌, ◌*◌, ◌^◌, ◌&&◌, ◌||◌, not, true, false};
ghost use Rattle.pat_base.specs.declared.member_id.TheConstants.{MOST_MEMBERS};

use pat_base::{TICKS_OF_SECOND, Ticks};

/// The settings of a cluster, by Patroni's documentation, "Dynamic Configuration Settings". Times are in seconds, and
/// the lag is in bytes. Each is within its range, so a setting outside it can't be made.
#[derive(Clone, Copy, PartialEq, Eq)]
pub struct Config {
    /// The time between two turns of an agent, from 1 to 86,400 seconds.
    pub loop_wait: u64,
    /// How long an agent waits for an answer, from 3 to 86,400 seconds.
    pub retry_timeout: u64,
    /// How long the leader's lease lasts, from 20 to 86,400 seconds.
    pub ttl: u64,
    /// How far behind the leader's log a member's may end that is to lead, from 0 to 2^62 bytes.
    pub maximum_lag_on_failover: u64,
    /// How long the start of a primary may take before another member takes over, from 0 to 86,400 seconds. At 0 a
    /// crashed primary isn't started again where another can take over.
    pub primary_start_timeout: u64,
    /// How many standbys replicate synchronously, from 1 to that of all members.
    pub synchronous_node_count: u64,
    /// Whether commits wait for synchronous standbys (Patroni's documentation, "Replication modes").
    pub synchronous_mode: bool,
    /// Whether they wait for so many of a set of standbys, whichever these are: quorum commit, a synchronous mode.
    pub quorum: bool,
    /// Whether commits wait also while no member can be a synchronous standby.
    pub synchronous_mode_strict: bool,
    /// Whether the leader follows another cluster's primary, and accepts no writes (Patroni's documentation, "Standby
    /// cluster"). It excludes synchronous and failsafe mode.
    pub standby_cluster: bool,
    /// Whether a leader goes on while the store is out of reach and all other members acknowledge it (Patroni's
    /// documentation, "DCS Failsafe Mode").
    pub failsafe_mode: bool,
    /// Whether the agents leave the cluster alone (Patroni's documentation, "Pause/Resume mode for the cluster").
    pub pause: bool,
    /// Whether a server whose log diverged is rewound by `pg_rewind`.
    pub use_pg_rewind: bool,
    ghost loop_wait_range: { (1 ≤ loop_wait) × (loop_wait ≤ 86400) },
    ghost retry_timeout_range: { (3 ≤ retry_timeout) × (retry_timeout ≤ 86400) },
    ghost ttl_range: { (20 ≤ ttl) × (ttl ≤ 86400) },
    ghost maximum_lag_on_failover_range: { maximum_lag_on_failover ≤ 2 ^ 62 },
    ghost primary_start_timeout_range: { primary_start_timeout ≤ 86400 },
    ghost synchronous_node_count_range: { (1 ≤ synchronous_node_count) × (synchronous_node_count ≤ MOST_MEMBERS) },
    ghost quorum_is_synchronous: { (not quorum || synchronous_mode) ≡ true },
    ghost standby_stands_alone: { (standby_cluster && (synchronous_mode || failsafe_mode)) ≡ false },
}

impl Config {
    ghost use Rattle.std.specs.Prelude.{◌≡◌, ◌≤◌, ◌*◌};
    ghost use Rattle.pat_base.specs.declared.ticks.TheConstants.{TICKS_OF_SECOND};
    ghost use Rattle.store_keys.specs.Defaults.{default_config};

    /// The settings where a configuration sets nothing: Patroni's defaults.
    pub fn defaults() -> Config
        ensures { result ≡ default_config }
    {
        Config {
            loop_wait: 10,
            retry_timeout: 10,
            ttl: 30,
            maximum_lag_on_failover: 1_048_576,
            primary_start_timeout: 300,
            synchronous_node_count: 1,
            synchronous_mode: false,
            quorum: false,
            synchronous_mode_strict: false,
            standby_cluster: false,
            failsafe_mode: false,
            pause: false,
            use_pg_rewind: false,
        }
    }

    /// The time between two turns of an agent, in ticks.
    pub fn loop_wait_ticks(&self) -> Ticks
        ensures { result.0 ≡ TICKS_OF_SECOND * self.now.loop_wait }
    {
        Ticks(TICKS_OF_SECOND * self.loop_wait)
    }

    /// How long an agent waits for an answer of the store, in ticks.
    pub fn retry_timeout_ticks(&self) -> Ticks
        ensures { result.0 ≡ TICKS_OF_SECOND * self.now.retry_timeout }
    {
        Ticks(TICKS_OF_SECOND * self.retry_timeout)
    }

    /// How long a lease lasts, in ticks.
    pub fn ttl_ticks(&self) -> Ticks
        ensures { result.0 ≡ TICKS_OF_SECOND * self.now.ttl }
    {
        Ticks(TICKS_OF_SECOND * self.ttl)
    }

    /// How long the start of a primary may take, in ticks.
    pub fn primary_start_timeout_ticks(&self) -> Ticks
        ensures { result.0 ≡ TICKS_OF_SECOND * self.now.primary_start_timeout }
    {
        Ticks(TICKS_OF_SECOND * self.primary_start_timeout)
    }
}
