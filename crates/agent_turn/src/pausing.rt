//! What an agent does otherwise while the cluster is paused: by itself it neither starts nor ends nor rewinds a server, but for a
//! handover (Patroni's documentation, "Pause/Resume mode for the cluster").
ghost use Rattle.std.specs.Prelude.{option_copied, ◌≡◌};
ghost use Rattle.agent_model.specs.Pausing.{ends_forks, is_paused, is_wanted, is_wanted_by, lets_rewind, may_start_behind};

use crate::Outputs;
use crate::role::Role;
use agent_model::{Knowledge, Machine, Output};
use cluster_view::{Snapshot, is_candidate};
use leader_key::{Armed, Lease, Writer};
use lease_store::Granted;
use pat_base::{MemberId, State, Ticks};
use store_keys::{Config, FailoverKey};

/// Whether the cluster is paused, by the newest snapshot.
pub fn is_paused(knows: &Knowledge) -> bool
    ensures { result ≡ is_paused knows.now }
{
    knows.settings.pause
}

/// Whether an agent may start its server behind another leader: in a pause only after a handover of its own.
pub fn may_start_behind(knows: &Knowledge) -> bool
    ensures { result ≡ may_start_behind knows.now }
{
    !is_paused(knows) || knows.handed_over
}

/// Whether these settings let a log be rewound that diverged.
pub fn lets_rewind(settings: &Config) -> bool
    ensures { result ≡ lets_rewind settings.now }
{
    settings.use_pg_rewind && !settings.pause
}

/// Whether under these settings a replica shuts down whose log diverged.
pub fn ends_forks(settings: &Config) -> bool
    ensures { result ≡ ends_forks settings.now }
{
    !(settings.use_pg_rewind || settings.pause)
}

/// Whether an operator wants this member to lead, by a failover key, and its server is a replica: only such a one takes the leader
/// key in a pause.
pub fn is_wanted(me: MemberId, failover: Option<FailoverKey>, state: State) -> bool
    ensures { result ≡ is_wanted me failover state }
{
    is_candidate(me, failover) && state.is_replica()
}

/// So they do by the failover key of the newest snapshot.
pub fn is_wanted_by(me: MemberId, seen: Option<&Snapshot>, state: State) -> bool
    ensures { result ≡ is_wanted_by me (option_copied seen.entry) state }
{
    match seen {
        None => false,
        Some(snapshot) => is_wanted(me, snapshot.failover(), state),
    }
}
