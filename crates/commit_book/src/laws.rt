//! Laws of every book: what the law of kept commits reads of it, and what it leaves by itself.
ghost use Rattle.std.specs.Prelude.{ℕ, ◌≡◌, ◌<◌, ◌++◌, Bool, true, false, List, [], ◌∷◌, Option, Some, None};
ghost use Rattle.std.specs.FinMap.{find};
ghost use Rattle.pat_base.specs.declared.lsn.Lsn.{Lsn};
ghost use Rattle.pat_base.specs.declared.member_set.MemberSet.{MemberSet};
ghost use Rattle.pat_base.specs.declared.name.Name.{Name};
ghost use Rattle.pat_base.specs.declared.server_state.Required.{Required};
ghost use Rattle.pat_base.specs.declared.ticks.Ticks.{Ticks};
ghost use Rattle.lease_store.specs.Decision.{decision_on, Refusal, Grant as Grants};
ghost use Rattle.lease_store.specs.KeyOrder.{key_cmp};
ghost use Rattle.store_keys.specs.Settings.{Settings};
ghost use Rattle.store_keys.specs.declared.key.Key.{Key};
ghost use Rattle.store_keys.specs.declared.key.Key.TheVariants.{Leader, Failsafe};
ghost use Rattle.store_keys.specs.declared.txn.Expected.{Expected};
ghost use Rattle.store_keys.specs.declared.txn.Txn.{Txn};
ghost use Rattle.store_keys.specs.declared.txn.SyncTxn.TheVariants.{Claim, SetSync};
ghost use Rattle.store_keys.specs.declared.txn.Txn.TheVariants.{Sync};
ghost use Rattle.store_keys.specs.declared.txn_kind.TxnKind.{TxnKind};
ghost use Rattle.store_keys.specs.declared.value.MemberInfo.{MemberInfo};
ghost use Rattle.event_book.specs.declared.event.Event.{Event};
ghost use Rattle.event_book.specs.declared.event.EventKind.{EventKind};
ghost use Rattle.event_book.specs.declared.event.EventKind.TheVariants.{Message};
ghost use Rattle.event_book.specs.declared.event.MessageEvent.TheVariants.{Sent};
ghost use Rattle.event_book.specs.declared.link.LinkEnd.TheVariants.{Store, Member as ToMember};
ghost use Rattle.event_book.specs.declared.member.Member.{Member};
ghost use Rattle.event_book.specs.declared.message.Body.TheVariants as bodies;
ghost use Rattle.event_book.specs.Flight.{InFlightFacts, in_flight};
ghost use Rattle.event_book.specs.Facts.{Facts, facts_after, facts_over, start_of};
ghost use Rattle.event_book.specs.Logs.{Logs};
ghost use Rattle.lease_model.specs.Past as lease_past;
ghost use Rattle.event_book.specs.Kinds.{AllAre};
ghost use Rattle.lease_model.specs.Showing.{granted_events, refused_events, read_events};
ghost use Rattle.lease_model.specs.Stores.{IsSpannedTxn, failsafe_key_of, is_granted as is_grant, leader_key_of};
ghost use Rattle.lease_book.specs.Flights as bridge_flights;
ghost use Rattle.lease_book.specs.Groups.{IsOfMembers, IsNumberedAbove, AreNumberedAbove};
ghost use Rattle.lease_book.specs.Waiting.{AsksOnly, IsLastAsked};
ghost use Rattle.commit_actions.specs.Actions.{Action, IsAllowed, SendSnapshot, is_granted};
ghost use Rattle.commit_actions.specs.Flights.{SyncRequest, Requested, SyncGranted};
ghost use Rattle.commit_actions.specs.Past.{Past, Query, Setup, VolatileState, OtherQuery, SyncQuery, claim_request, first_past, is_keyless, is_leaderless, leader_revision, past_after, past_over, publish_request, query_of, state_of};
ghost use Rattle.commit_book.specs.Deliveries.{ComparesNoSync, IsDelivered, MayBeGranted, granted_actions, refused_action, transition_of};
ghost use Rattle.commit_book.specs.Example.{claim_flying, led_and_claimed};
ghost use Rattle.commit_book.specs.Flights.{AreCausal, IsSameBook, IsSameFlight, is_creating};
ghost use Rattle.commit_book.specs.Hearing.{CarriesLease, CarriesWrite, snapshot_in};
ghost use Rattle.commit_book.specs.Keys.{IsSameKeys};
ghost use Rattle.commit_book.specs.Waiting.{IsAskedOnce};

/// A book leaves the same keys and the same messages in flight as commits read them: each event keeps it, if a leader key that it creates
/// isn't absent at once, a message is sent under a new number, and a grant of the key store answers a request that was asked and granted last.
pub fn same_book()
    ensures first { (logs : Logs) (required : List Required) (confirmed : List (List (Option Lsn))) (first : Settings) (names : List Name) (base : ℕ)
        → IsSameBook (first_past logs required confirmed) (start_of first names base) }
    ensures over { (past : Past) (facts : Facts) (events : List Event) → AreCausal past facts events → IsSameBook past facts → IsSameBook (past_over past events) (facts_over facts events) }
    // So at each moment inside them.
    ensures front { (past : Past) (facts : Facts) (front rest : List Event) → AreCausal past facts (front ++ rest) → AreCausal past facts front }
    // The delivery of a request that the key store grants, of one that it refuses, and of a read.
    ensures granted { (past : Past) (facts : Facts) (tick : Ticks) (i j : ℕ) (carried : InFlightFacts) (by : Member) (incarnation sequence : ℕ) (txn : Txn) (standbys : List Name)
        → IsSameBook past facts
        → in_flight facts.flight i ≡ Some carried
        → carried.message ≡ record { from = ToMember by; to = Store; incarnation = incarnation; sequence = sequence; body = bodies.Request txn }
        → facts.sent < j → IsSpannedTxn txn
        → decision_on facts.keys facts.clock txn ≡ Grants
        → AreCausal past facts (granted_events tick i j by incarnation sequence txn standbys) }
    ensures refused { (past : Past) (facts : Facts) (tick : Ticks) (i j : ℕ) (by : Member) (incarnation sequence : ℕ) (request : TxnKind) (key : Key) (found : Expected)
        → facts.sent < j → AreCausal past facts (refused_events tick i j by incarnation sequence request key found) }
    ensures read { (past : Past) (facts : Facts) (tick : Ticks) (i j : ℕ) (by : Member) (incarnation sequence : ℕ) → facts.sent < j → AreCausal past facts (read_events tick i j by incarnation sequence) }
    // An input of an agent with the delivery before it, a tick with what comes in it, a loss and all else that isn't the key store's.
    ensures members { (past : Past) (facts : Facts) (events : List Event) → AllAre IsOfMembers events → AreNumberedAbove facts.sent events → AreCausal past facts events }
    // What commits read of a request in flight is what was asked.
    ensures asked { (past : Past) (facts : Facts) (i : ℕ) (request : SyncRequest) → IsSameBook past facts → past.flight i ≡ Some (Requested request) → past.asked i ≡ SyncQuery request }
{}

/// The key store's decision on a claim, or on a write of the sync key, is the law's: it grants what the law grants, and nothing else.
pub fn decisions()
    ensures claim { (past : Past) (facts : Facts) (m incarnation sequence revision : ℕ) (sync : Expected) → IsSameKeys past facts
        → is_grant (decision_on facts.keys facts.clock (Sync (Claim revision sync))) ≡ is_granted (leader_revision past.lease.leader) past.sync (claim_request m incarnation sequence revision sync) }
    ensures publish { (past : Past) (facts : Facts) (m incarnation sequence revision : ℕ) (sync : Expected) (standbys : MemberSet) (may_lack : Option ℕ) → IsSameKeys past facts
        → is_grant (decision_on facts.keys facts.clock (Sync (SetSync revision sync standbys may_lack))) ≡ is_granted (leader_revision past.lease.leader) past.sync (publish_request m incarnation sequence revision sync standbys may_lack) }
{}

/// A delivery to the key store of a message that the book has in flight is an action, which is allowed and shown by its events, or such an
/// action and the sending of its answer; and it leaves the same book. In synchronous mode: creates compare no sync key, and nobody removes it.
pub fn deliveries()
    // A claim, a write of the sync key, a release and other writes need nothing beside; creates and renewals a number that was given.
    ensures granted { (setup : Setup) (past : Past) (facts : Facts) (volatile_states : ℕ → VolatileState) (tick : Ticks) (i j : ℕ) (carried : InFlightFacts) (by : Member) (incarnation sequence : ℕ) (txn : Txn) (standbys : List Name)
        → setup.creates_compare ≡ false
        → IsSameBook past facts
        → in_flight facts.flight i ≡ Some carried
        → carried.message ≡ record { from = ToMember by; to = Store; incarnation = incarnation; sequence = sequence; body = bodies.Request txn }
        → facts.sent < j → IsSpannedTxn txn
        → decision_on facts.keys facts.clock txn ≡ Grants
        → MayBeGranted (state_of setup past volatile_states) by.id.number incarnation sequence txn
        → IsDelivered setup past facts volatile_states (granted_events tick i j by incarnation sequence txn standbys) (granted_actions volatile_states tick i j by incarnation sequence txn standbys) }
    ensures refused { (setup : Setup) (past : Past) (facts : Facts) (volatile_states : ℕ → VolatileState) (tick : Ticks) (i j : ℕ) (carried : InFlightFacts) (by : Member) (incarnation sequence : ℕ) (txn : Txn) (request : TxnKind) (key : Key) (found : Expected)
        → IsSameBook past facts
        → in_flight facts.flight i ≡ Some carried
        → carried.message ≡ record { from = ToMember by; to = Store; incarnation = incarnation; sequence = sequence; body = bodies.Request txn }
        → facts.sent < j
        → decision_on facts.keys facts.clock txn ≡ Refusal key found
        → ComparesNoSync txn
        → let events = refused_events tick i j by incarnation sequence request key found in
        IsDelivered setup past facts volatile_states events (transition_of volatile_states (refused_action i j txn) events ∷ []) }
    ensures read { (setup : Setup) (past : Past) (facts : Facts) (volatile_states : ℕ → VolatileState) (tick : Ticks) (i j : ℕ) (carried : InFlightFacts) (by : Member) (incarnation sequence : ℕ)
        → IsSameBook past facts
        → in_flight facts.flight i ≡ Some carried
        → carried.message ≡ record { from = ToMember by; to = Store; incarnation = incarnation; sequence = sequence; body = bodies.Read }
        → facts.sent < j
        → let snapshot : Action = SendSnapshot (is_keyless past.lease.leader past.lease.failsafe) (is_leaderless past.lease.leader) j in
        let events = read_events tick i j by incarnation sequence in
        IsAllowed (state_of setup past volatile_states) snapshot
        → IsDelivered setup past facts volatile_states events (transition_of volatile_states snapshot events ∷ []) }
{}

/// What commits read of a message that comes to an agent.
pub fn heard()
    ensures snapshot { (past : Past) (facts : Facts) (i : ℕ) (carried : InFlightFacts) (member : Member) (incarnation sequence : ℕ)
        → IsSameFlight past facts
        → in_flight facts.flight i ≡ Some carried
        → carried.message ≡ record { from = Store; to = ToMember member; incarnation = incarnation; sequence = sequence; body = bodies.Snapshot }
        → let leader = leader_key_of (find key_cmp Leader carried.snapshot) in
        past.flight i ≡ snapshot_in carried (is_keyless leader (failsafe_key_of (find key_cmp Failsafe carried.snapshot))) (is_leaderless leader) }
    // The grant of a create or a renewal; of a claim or a write of the sync key; of another write.
    ensures leased { (past : Past) (facts : Facts) (i : ℕ) (carried : InFlightFacts) (member : Member) (incarnation sequence request : ℕ)
        → IsSameFlight past facts
        → in_flight facts.flight i ≡ Some carried
        → carried.message ≡ record { from = Store; to = ToMember member; incarnation = incarnation; sequence = sequence; body = bodies.Granted request true }
        → CarriesLease past i carried member incarnation sequence }
    ensures written { (past : Past) (facts : Facts) (i : ℕ) (carried : InFlightFacts) (member : Member) (incarnation sequence request : ℕ) (leased : Bool) (asked : SyncRequest)
        → IsSameFlight past facts
        → in_flight facts.flight i ≡ Some carried
        → carried.message ≡ record { from = Store; to = ToMember member; incarnation = incarnation; sequence = sequence; body = bodies.Granted request leased }
        → past.asked request ≡ SyncQuery asked → is_creating asked.aim ≡ false
        → CarriesWrite past i carried member incarnation sequence asked.aim }
    ensures other { (past : Past) (facts : Facts) (i : ℕ) (carried : InFlightFacts) (member : Member) (incarnation sequence request : ℕ) (leased : Bool)
        → IsSameFlight past facts
        → in_flight facts.flight i ≡ Some carried
        → carried.message ≡ record { from = Store; to = ToMember member; incarnation = incarnation; sequence = sequence; body = bodies.Granted request leased }
        → past.asked request ≡ OtherQuery
        → past.flight i ≡ snapshot_in carried false false }
    ensures refused { (past : Past) (facts : Facts) (i : ℕ) (carried : InFlightFacts) (member : Member) (incarnation sequence request : ℕ) (key : Key) (found : Expected)
        → IsSameFlight past facts
        → in_flight facts.flight i ≡ Some carried
        → carried.message ≡ record { from = Store; to = ToMember member; incarnation = incarnation; sequence = sequence; body = bodies.Refused request key found }
        → past.flight i ≡ None }
{}

/// What is waited for agrees with what is in flight, where both laws read one book: a request under a new number is the only one of its name,
/// stays the only one while its member asks under others, and a grant of that name answers it, so the sync key that it tells is what was asked for.
pub fn waiting()
    ensures sent { (p : lease_past.Past) (past : Past) (number : ℕ) (by : Member) (incarnation sequence last : ℕ) (txn : Txn) → IsLastAsked p.asked by.id.number incarnation last → last < sequence
        → let kind = Message (Sent number (record { from = ToMember by; to = Store; incarnation = incarnation; sequence = sequence; body = bodies.Request txn })) in
        IsAskedOnce (lease_past.past_after p kind).asked (past_after past kind).asked by.id.number incarnation sequence (query_of by.id.number incarnation sequence txn) }
    ensures kept { (p : lease_past.Past) (past : Past) (facts : Facts) (kind : EventKind) (member incarnation sequence : ℕ) (query : Query)
        → bridge_flights.IsSameFlight p facts
        → IsNumberedAbove facts.sent kind
        → AsksOnly (λ m r s. m ≡ member → r ≡ incarnation → s ≡ sequence → ⊥) kind
        → IsAskedOnce p.asked past.asked member incarnation sequence query → IsAskedOnce (lease_past.past_after p kind).asked (past_after past kind).asked member incarnation sequence query }
    ensures granted { (p : lease_past.Past) (past : Past) (facts : Facts) (i : ℕ) (carried : InFlightFacts) (member : Member) (incarnation sequence request : ℕ) (leased : Bool) (query : Query)
        → bridge_flights.IsSameFlight p facts
        → in_flight facts.flight i ≡ Some carried
        → carried.message ≡ record { from = Store; to = ToMember member; incarnation = incarnation; sequence = sequence; body = bodies.Granted request leased }
        → IsAskedOnce p.asked past.asked member.id.number incarnation sequence query
        → past.asked request ≡ query }
    ensures written { (p : lease_past.Past) (past : Past) (facts : Facts) (i : ℕ) (carried : InFlightFacts) (member : Member) (incarnation sequence request : ℕ) (leased : Bool) (asked : SyncRequest)
        → bridge_flights.IsSameFlight p facts
        → IsSameFlight past facts
        → in_flight facts.flight i ≡ Some carried
        → carried.message ≡ record { from = Store; to = ToMember member; incarnation = incarnation; sequence = sequence; body = bodies.Granted request leased }
        → IsAskedOnce p.asked past.asked member.id.number incarnation sequence (SyncQuery asked) → is_creating asked.aim ≡ false
        → CarriesWrite past i carried member incarnation sequence asked.aim }
{}

/// There are such books with the grant of a claim in flight.
pub fn example()
    ensures { (logs : Logs) (required : List Required) (confirmed : List (List (Option Lsn))) (first : Settings) (names : List Name) (base : ℕ) (by : Member) (info : MemberInfo)
        → let past = first_past logs required confirmed in
        AreCausal past (start_of first names base) (led_and_claimed by info) × ((past_over past (led_and_claimed by info)).flight 4 ≡ Some (SyncGranted (claim_flying by))) }
{}
