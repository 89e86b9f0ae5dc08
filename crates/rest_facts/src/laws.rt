//! Health checks over views, in the words of Patroni (Patroni documentation, "Patroni REST API", "Health check endpoints"). Each is a
//! function without a body whose contract is what is proved. A view stands beside the newest snapshot that its agent accepted.
ghost use Rattle.std.specs.Prelude.{ℕ, ◌≡◌, List, Option, Some, None, true, false, IsTrue};
ghost use Rattle.pat_base.specs.SizeText.{size_of};
ghost use Rattle.rest_health.specs.declared.endpoint.Endpoint.{Endpoint};
ghost use Rattle.rest_health.specs.declared.endpoint.Endpoint.TheVariants as paths;
ghost use Rattle.rest_health.specs.Laws.{IsOkWhere, is_for_primaries, is_for_replicas};
ghost use Rattle.rest_health.specs.Statuses.{ok, unavailable};
ghost use Rattle.cluster_view.specs.declared.view.AgentView.{AgentView};
ghost use Rattle.cluster_view.specs.Snapshots.{SnapshotFacts};
ghost use Rattle.rest_facts.specs.Checks.{health_of_view};
ghost use Rattle.rest_facts.specs.Laws.{HoldsKey, Leads, TakesLoad, IsNamed, KeepsUp, TakesTurns, counts_lag};

/// `/primary` is healthy exactly where the server runs as the primary and the agent's role holds the leader key, and `/leader` where the
/// role does.
pub fn primaries_lead_with_the_key()
    ensures primary { (view : AgentView) (seen : Option SnapshotFacts) (lag : Option (List ℕ))
        → IsOkWhere (health_of_view paths.Primary view seen lag) (Leads view) }
    ensures leader { (view : AgentView) (seen : Option SnapshotFacts) (lag : Option (List ℕ))
        → IsOkWhere (health_of_view paths.Leader view seen lag) (HoldsKey view) }
{}

/// `/replica` is healthy exactly where the server runs as a replica without the tag `noloadbalance`, and its log ends no further behind
/// what the leader told than the query allows.
pub fn replicas_serve_within_their_lag()
    ensures { (view : AgentView) (seen : Option SnapshotFacts) (lag : Option (List ℕ))
        → IsOkWhere (health_of_view paths.Replica view seen lag) (TakesLoad view × KeepsUp view seen lag) }
{}

/// `/synchronous` is healthy exactly where such a replica, however far it lags, is named as a standby by the sync key of the newest
/// snapshot; `/asynchronous` where it isn't, and keeps up.
pub fn standbys_serve_as_named()
    ensures named { (view : AgentView) (seen : Option SnapshotFacts) (lag : Option (List ℕ))
        → IsOkWhere (health_of_view paths.Synchronous view seen lag) (TakesLoad view × IsNamed view seen) }
    ensures unnamed { (view : AgentView) (seen : Option SnapshotFacts) (lag : Option (List ℕ))
        → IsOkWhere (health_of_view paths.Asynchronous view seen lag)
        (TakesLoad view × (IsNamed view seen → ⊥) × KeepsUp view seen lag) }
{}

/// `/liveness` is healthy exactly where a turn of this incarnation began, and the last one at most the ttl ago on a primary, and at most twice the
/// ttl ago else.
pub fn agents_live_by_their_turns()
    ensures { (view : AgentView) (seen : Option SnapshotFacts) (lag : Option (List ℕ))
        → IsOkWhere (health_of_view paths.Liveness view seen lag) (TakesTurns view seen) }
{}

/// A value of `lag` that is no size sets no limit: each path answers as without a parameter.
pub fn refused_values_set_no_limit()
    ensures { (endpoint : Endpoint) (view : AgentView) (seen : Option SnapshotFacts) (value : List ℕ) → size_of value ≡ None
        → health_of_view endpoint view seen (Some value) ≡ health_of_view endpoint view seen None }
{}

/// The lag of a query counts on `/replica`, `/async` and `/asynchronous` alone.
pub fn lag_counts_on_three_paths()
    ensures { (endpoint : Endpoint) (view : AgentView) (seen : Option SnapshotFacts) (lag other : Option (List ℕ))
        → counts_lag endpoint ≡ false → health_of_view endpoint view seen lag ≡ health_of_view endpoint view seen other }
{}

/// Who is healthy as a primary is unavailable as a replica, on each of their paths: a balancer finds no member on both sides.
pub fn no_member_serves_on_both_sides()
    ensures { (primaries replicas : Endpoint) (view : AgentView) (seen : Option SnapshotFacts) (lag other : Option (List ℕ))
        → IsTrue (is_for_primaries primaries) → IsTrue (is_for_replicas replicas)
        → health_of_view primaries view seen lag ≡ ok → health_of_view replicas view seen other ≡ unavailable }
{}
