//! How long ago an agent's last turn may be.
ghost use Rattle.std.specs.Prelude.{◌≡◌, option_copied};
ghost use Rattle.store_keys.specs.declared.config.Config.{Config};
ghost use Rattle.rest_facts.specs.Turns.{config_on, is_fresh};

use cluster_view::Snapshot;
use pat_base::Ticks;
use store_keys::Config;

/// How many times the ttl may have passed since the last turn of an agent whose server isn't the primary (Patroni documentation, "Patroni
/// REST API", `/liveness`).
pub(crate) const TTLS_OF_OTHERS: u64 = 2;

/// The settings by which an agent goes: those of its newest snapshot, and the defaults before the first.
pub(crate) fn config_on(seen: Option<&Snapshot>) -> Config
    ensures { result ≡ config_on (option_copied seen.entry) }
{
    match seen {
        None => Config::defaults(),
        Some(seen) => seen.config(),
    }
}

/// Whether a turn of this incarnation began, and the last one at most so many ticks ago.
pub(crate) fn is_fresh(moment: Ticks, last_turn: Option<Ticks>, most: Ticks) -> bool
    ensures { result ≡ is_fresh moment last_turn most.0 }
{
    match last_turn {
        None => false,
        Some(turn) => moment.0.saturating_sub(turn.0) <= most.0,
    }
}
