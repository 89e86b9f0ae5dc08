//! What the paths of health checks ask for, bit by bit (Patroni documentation, "Patroni REST API", "Health check endpoints"). Each is a
//! function without a body whose contract is what is proved.
ghost use Rattle.std.specs.Prelude.{ℕ, ◌≡◌, ◌⊎◌, IsTrue};
ghost use Rattle.rest_health.specs.Bits as bits;
ghost use Rattle.rest_health.specs.declared.endpoint.Endpoint.{Endpoint};
ghost use Rattle.rest_health.specs.declared.endpoint.Endpoint.TheVariants as paths;
ghost use Rattle.rest_health.specs.Health.{health_of};
ghost use Rattle.rest_health.specs.Laws.{Has, Lacks, IsOkWhere, is_for_primaries, is_for_replicas};
ghost use Rattle.rest_health.specs.Statuses.{ok, unavailable};

/// `/`, `/primary` and `/read-write` are healthy only where the server runs as the primary and the agent holds the leader key; `/leader`
/// where it holds the key, whatever the server runs as.
pub fn paths_for_primaries()
    ensures root { (word : ℕ) → IsOkWhere (health_of paths.Root word) (Has word bits.primary × Has word bits.has_key) }
    ensures primary { (word : ℕ) → IsOkWhere (health_of paths.Primary word) (Has word bits.primary × Has word bits.has_key) }
    ensures read_write { (word : ℕ) → IsOkWhere (health_of paths.ReadWrite word) (Has word bits.primary × Has word bits.has_key) }
    ensures leader { (word : ℕ) → IsOkWhere (health_of paths.Leader word) (Has word bits.has_key) }
{}

/// A replica without the tag `noloadbalance`: on `/replica` within the lag of the query, on `/sync` and `/synchronous` where the sync key
/// names it as a standby, on `/async` and `/asynchronous` where it doesn't, within that lag again.
pub fn paths_for_replicas()
    ensures replica { (word : ℕ) → IsOkWhere (health_of paths.Replica word)
        (Has word bits.replica × Lacks word bits.no_load_balance × Has word bits.within_lag) }
    ensures sync_path { (word : ℕ) → IsOkWhere (health_of paths.Sync word)
        (Has word bits.replica × Lacks word bits.no_load_balance × Has word bits.standby) }
    ensures synchronous { (word : ℕ) → IsOkWhere (health_of paths.Synchronous word)
        (Has word bits.replica × Lacks word bits.no_load_balance × Has word bits.standby) }
    ensures async_path { (word : ℕ) → IsOkWhere (health_of paths.Async word)
        (Has word bits.replica × Lacks word bits.no_load_balance × Lacks word bits.standby × Has word bits.within_lag) }
    ensures asynchronous { (word : ℕ) → IsOkWhere (health_of paths.Asynchronous word)
        (Has word bits.replica × Lacks word bits.no_load_balance × Lacks word bits.standby × Has word bits.within_lag) }
{}

/// Such a replica, whatever its lag, on `/read-only`, and a synchronous standby on `/read-only-sync`: each "also includes the primary".
pub fn paths_for_reading()
    ensures read_only { (word : ℕ) → IsOkWhere (health_of paths.ReadOnly word)
        ((Has word bits.replica × Lacks word bits.no_load_balance) ⊎ (Has word bits.primary × Has word bits.has_key)) }
    ensures read_only_sync { (word : ℕ) → IsOkWhere (health_of paths.ReadOnlySync word)
        ((Has word bits.replica × Lacks word bits.no_load_balance × Has word bits.standby) ⊎ (Has word bits.primary × Has word bits.has_key)) }
{}

/// `/health` asks for a server that is up and running, `/readiness` for the leader or such a server, and `/liveness` for an agent whose last
/// turn is recent: at most the ttl ago where the server runs as the primary, and twice that else.
pub fn paths_for_probes()
    ensures health { (word : ℕ) → IsOkWhere (health_of paths.Health word) (Has word bits.primary ⊎ Has word bits.replica) }
    ensures readiness { (word : ℕ) → IsOkWhere (health_of paths.Readiness word)
        (Has word bits.has_key ⊎ (Has word bits.primary ⊎ Has word bits.replica)) }
    ensures liveness { (word : ℕ) → IsOkWhere (health_of paths.Liveness word)
        ((Has word bits.primary × Has word bits.fresh_as_primary) ⊎ (Lacks word bits.primary × Has word bits.fresh_otherwise)) }
{}

/// Of a server that doesn't run both as the primary and as a replica: who is healthy as a primary is unavailable as a replica, on each of
/// their paths. So a balancer finds no member on both sides.
pub fn whoever_serves_as_primary_is_no_replica()
    ensures { (word : ℕ) (primaries replicas : Endpoint) → IsTrue (is_for_primaries primaries) → IsTrue (is_for_replicas replicas)
        → (Has word bits.primary × Has word bits.replica → ⊥)
        → health_of primaries word ≡ ok → health_of replicas word ≡ unavailable }
{}

/// Whoever is healthy as a synchronous standby or as the primary is so for reading, on both paths.
pub fn reading_includes_the_primary()
    ensures { (word : ℕ) → (health_of paths.Sync word ≡ ok) ⊎ (health_of paths.Primary word ≡ ok)
        → (health_of paths.ReadOnly word ≡ ok) × (health_of paths.ReadOnlySync word ≡ ok) }
{}
