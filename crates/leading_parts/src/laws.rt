//! Laws of the leader key, and of members that nothing concerns.
ghost use Rattle.cluster_model.specs.Cluster.{cluster_after, cluster_over};
ghost use Rattle.cluster_model.specs.Messages.{arrival_events_at, hear_events, wake_events_of};
ghost use Rattle.cluster_model.specs.State.{Cluster};
ghost use Rattle.cluster_model.specs.Ticking.{tick_events};
ghost use Rattle.event_book.specs.Flight.{InFlightFacts, in_flight};
ghost use Rattle.event_book.specs.Kinds.{AllAre};
ghost use Rattle.event_book.specs.declared.event.Event.{Event};
ghost use Rattle.event_book.specs.declared.event.EventKind.TheVariants.{Tick};
ghost use Rattle.event_book.specs.declared.link.LinkEnd.TheVariants.{Store};
ghost use Rattle.event_book.specs.declared.member.Member.{Member};
ghost use Rattle.event_book.specs.declared.message.Body.TheVariants.{Read, Request, Snapshot};
ghost use Rattle.leading_parts.specs.Elsewhere.{AreElsewhere, StandsSame};
ghost use Rattle.leading_parts.specs.Holding.{GrantsNoOperator, HasKey, HasRoom, IsAnswered, IsMemberOf, IsRenewal, LeavesKey, LeavesSettings, NoneAsks};
ghost use Rattle.leading_parts.specs.Others.{AreNumbered};
ghost use Rattle.leading_parts.specs.Ticked.{FiresPast, IsPrimary};
ghost use Rattle.lease_model.specs.Leases.{LeaderKey};
ghost use Rattle.lease_owners.specs.Asking.{AsksFor};
ghost use Rattle.lease_owners.specs.Kept.{IsOwned};
ghost use Rattle.pat_base.specs.declared.lsn.Lsn.{Lsn};
ghost use Rattle.pat_base.specs.declared.member_set.MemberSet.{MemberSet};
ghost use Rattle.pat_base.specs.declared.ticks.Ticks.{Ticks};
ghost use Rattle.script_model.specs.Script.{HeadText};
ghost use Rattle.std.specs.Prelude.{List, Option, Some, slice_get, true, ℕ, ◌+◌, ◌<◌, ◌≡◌, ◌≢◌};
ghost use Rattle.store_keys.specs.declared.txn.LeaseTxn.TheVariants.{Renew};
ghost use Rattle.store_keys.specs.declared.txn.Txn.TheVariants.{Lease};
ghost use Rattle.store_keys.specs.declared.value.HistoryRow.{HistoryRow};
ghost use Rattle.store_keys.specs.declared.value.MemberInfo.{MemberInfo};
ghost use Rattle.event_book.specs.declared.link.LinkEnd.TheVariants as ends;

/// The leader key stays its holder's over each decision of the key store, and its holder is answered in place.
pub fn the_key_stays_its_holders()
    // Who asks for the renewal or the release of the leader key as it is now is its holder.
    ensures asks { (head : HeadText) (cluster : Cluster) (key : LeaderKey) (number : ℕ) (carried : InFlightFacts) → IsOwned head cluster → HasKey key cluster
        → in_flight cluster.facts.flight number ≡ Some carried → AsksFor key.revision carried.message.body → IsMemberOf key.holder carried.message.from }
    // Whatever comes to the key store but such a question leaves it as it is; and so does whatever another member asks.
    ensures stays { (head : HeadText) (cluster : Cluster) (key : LeaderKey) (number : ℕ) (carried : InFlightFacts) → IsOwned head cluster → HasKey key cluster
        → in_flight cluster.facts.flight number ≡ Some carried → carried.message.to ≡ Store → (AsksFor key.revision carried.message.body → ⊥)
        → LeavesKey cluster (cluster_over cluster (arrival_events_at cluster number carried Store)) }
    ensures others { (head : HeadText) (cluster : Cluster) (key : LeaderKey) (number : ℕ) (carried : InFlightFacts) → IsOwned head cluster → HasKey key cluster
        → in_flight cluster.facts.flight number ≡ Some carried → carried.message.to ≡ Store → (IsMemberOf key.holder carried.message.from → ⊥)
        → LeavesKey cluster (cluster_over cluster (arrival_events_at cluster number carried Store)) }
    // What comes to the key store brings no such question.
    ensures brings { (head : HeadText) (cluster : Cluster) (revision number : ℕ) (carried : InFlightFacts) → IsOwned head cluster
        → in_flight cluster.facts.flight number ≡ Some carried → carried.message.to ≡ Store → NoneAsks revision cluster.facts.flight
        → NoneAsks revision (cluster_over cluster (arrival_events_at cluster number carried Store)).facts.flight }
    // A read is answered with the key as it is, and the renewal of that key is granted.
    ensures reads { (head : HeadText) (cluster : Cluster) (key : LeaderKey) (number : ℕ) (carried : InFlightFacts) → IsOwned head cluster → HasKey key cluster
        → in_flight cluster.facts.flight number ≡ Some carried → carried.message.to ≡ Store → carried.message.body ≡ Read → HasRoom cluster number
        → IsAnswered carried.message Snapshot key (cluster.facts.sent + 1) (cluster_over cluster (arrival_events_at cluster number carried Store)) }
    ensures renews { (head : HeadText) (cluster : Cluster) (key : LeaderKey) (number : ℕ) (carried : InFlightFacts) (info : MemberInfo) (ttl : Ticks) (status : Option Lsn) (row : Option HistoryRow) (failsafe : Option MemberSet)
        → IsOwned head cluster → HasKey key cluster
        → in_flight cluster.facts.flight number ≡ Some carried → carried.message.to ≡ Store → carried.message.body ≡ Request (Lease (Renew key.revision info ttl status row failsafe)) → HasRoom cluster number
        → IsRenewal carried.message number ttl.0 key cluster (cluster_over cluster (arrival_events_at cluster number carried Store)) }
    // A tick leaves the key that lasts past it.
    ensures ticks { (head : HeadText) (cluster : Cluster) (key : LeaderKey) → IsOwned head cluster → HasKey key cluster → cluster.facts.clock + 1 < key.expiry
        → LeavesKey cluster (cluster_after cluster Tick) }
    // While no operator's request is granted, the configuration stays as it is, and no failover key comes.
    ensures settings { (head : HeadText) (cluster : Cluster) (number : ℕ) (carried : InFlightFacts) → IsOwned head cluster
        → in_flight cluster.facts.flight number ≡ Some carried → carried.message.to ≡ Store → AllAre GrantsNoOperator (arrival_events_at cluster number carried Store)
        → LeavesSettings cluster (cluster_over cluster (arrival_events_at cluster number carried Store)) }
    ensures times { (head : HeadText) (cluster : Cluster) → IsOwned head cluster → LeavesSettings cluster (cluster_after cluster Tick) }
{}

/// Events elsewhere leave a member's agent, process, watchdog and hold as they were, and its server in its state.
pub fn what_happens_elsewhere_leaves_a_member()
    ensures { (n : ℕ) (cluster : Cluster) (events : List Event) → AreElsewhere n cluster events → StandsSame n cluster (cluster_over cluster events) }
{}

/// What the agents of other members do happens elsewhere: once they are woken, and once a message comes to them.
pub fn others_act_elsewhere()
    ensures wakes { (n : ℕ) (member : Member) → n ≢ member.id.number → (cluster : Cluster) → AreNumbered cluster → AreElsewhere n cluster (wake_events_of cluster member) }
    ensures hears { (n : ℕ) (member : Member) → n ≢ member.id.number → (cluster : Cluster) (number : ℕ) (carried : InFlightFacts) → AreNumbered cluster → in_flight cluster.facts.flight number ≡ Some carried → carried.message.to ≡ ends.Member member
        → AreElsewhere n cluster (hear_events cluster number carried member) }
{}

/// So does what comes to the key store, whoever sent it.
pub fn the_key_store_is_elsewhere()
    ensures arrivals { (n : ℕ) (cluster : Cluster) (number : ℕ) (carried : InFlightFacts) → in_flight cluster.facts.flight number ≡ Some carried → carried.message.to ≡ ends.Store → AreElsewhere n cluster (arrival_events_at cluster number carried ends.Store) }
{}

/// A tick leaves a member whose server is the primary and whose watchdog doesn't fire in it, whatever it brings to the others.
pub fn a_tick_leaves_a_primary()
    ensures same { (n : ℕ) (cluster : Cluster) → FiresPast (cluster.facts.clock + 1) (slice_get cluster.facts.deadlines n) → IsPrimary n cluster → StandsSame n cluster (cluster_over cluster (tick_events cluster)) }
{}
