//! Laws of every book: what the law of the lease reads of it, and what it leaves by itself.
ghost use Rattle.std.specs.Prelude.{ℕ, ◌≡◌, ◌⊎◌, ◌∷◌, ◌<◌, ◌≤◌, ◌++◌, Bool, true, false, List, length, Option, Some, None};
ghost use Rattle.std.specs.FinMap.{find};
ghost use Rattle.pat_base.specs.declared.name.Name.{Name};
ghost use Rattle.pat_base.specs.declared.ticks.Ticks.{Ticks};
ghost use Rattle.lease_store.specs.Decision.{decision_on, Refusal, Grant as Grants};
ghost use Rattle.lease_store.specs.KeyOrder.{key_cmp};
ghost use Rattle.store_keys.specs.Settings.{Settings};
ghost use Rattle.store_keys.specs.declared.key.Key.{Key};
ghost use Rattle.store_keys.specs.declared.key.Key.TheVariants.{Leader, Failsafe};
ghost use Rattle.store_keys.specs.declared.txn.Expected.{Expected};
ghost use Rattle.store_keys.specs.declared.txn.Txn.{Txn};
ghost use Rattle.store_keys.specs.declared.txn_kind.TxnKind.{TxnKind};
ghost use Rattle.store_keys.specs.declared.value.MemberInfo.{MemberInfo};
ghost use Rattle.event_book.specs.declared.event.Event.{Event};
ghost use Rattle.event_book.specs.declared.event.EventKind.{EventKind};
ghost use Rattle.event_book.specs.declared.event.EventKind.TheVariants.{Message};
ghost use Rattle.event_book.specs.declared.event.MessageEvent.TheVariants.{Sent, Delivered};
ghost use Rattle.event_book.specs.declared.link.LinkEnd.TheVariants.{Store, Member as ToMember};
ghost use Rattle.event_book.specs.declared.member.Member.{Member};
ghost use Rattle.event_book.specs.declared.message.Body.TheVariants as bodies;
ghost use Rattle.event_book.specs.Flight.{InFlightFacts, in_flight};
ghost use Rattle.event_book.specs.Facts.{Facts, facts_after, facts_over, start_of};
ghost use Rattle.event_book.specs.Writers.{writes_over};
ghost use Rattle.lease_model.specs.Actions.{Action, Deliver};
ghost use Rattle.lease_model.specs.Books.{IsShown};
ghost use Rattle.lease_model.specs.Claims.{BeginsBehind, MayBeginBehind};
ghost use Rattle.lease_model.specs.Inputs.{AgentInput, MaySend};
ghost use Rattle.lease_model.specs.Leases.{Flying, Read, Question, Requested, Answered, FailsafeRequested, Acknowledged};
ghost use Rattle.lease_model.specs.Outcomes.{seen_of};
ghost use Rattle.lease_model.specs.Past.{Past, VolatileState, first_past, past_after, past_over, past_of, query_of, state_of};
ghost use Rattle.event_book.specs.Kinds.{AllAre};
ghost use Rattle.lease_model.specs.States.{Agent, Declared, State};
ghost use Rattle.lease_model.specs.Stores.{IsSameStore, IsSpanned, IsSpannedTxn, leader_key_of, failsafe_key_of};
ghost use Rattle.lease_model.specs.Showing.{granted_events, refused_events, read_events};
ghost use Rattle.lease_book.specs.Example.{asked_and_granted, answer_flying};
ghost use Rattle.lease_book.specs.Flights.{IsSameFlight, IsCausal, AreCausal, IsSameBook};
ghost use Rattle.lease_book.specs.Groups.{IsOfMembers, AreNumberedAbove, CarriesGrant};
ghost use Rattle.lease_book.specs.Machines.{IsSameMachines, FeedsByGrants};
ghost use Rattle.lease_book.specs.Sending.{SendsOnly};
ghost use Rattle.lease_book.specs.Waiting.{IsAskedOnce, IsLastAsked, IsLastRun, AsksOnly};

/// A book leaves the same messages in flight by the law's definitions as by its own: each event keeps it, if a message is sent under a
/// new number, and a grant of the key store answers a question that was asked.
pub fn same_flight()
    ensures first { (first : Settings) (names : List Name) (base : ℕ) → IsSameFlight first_past (start_of first names base) }
    ensures each { (past : Past) (facts : Facts) (kind : EventKind)
        → IsCausal past facts kind → IsSameStore past facts → IsSameFlight past facts → IsSameFlight (past_after past kind) (facts_after facts kind) }
{}

/// The same of keys and messages together, over a list of events.
pub fn same_book()
    ensures first { (first : Settings) (names : List Name) (base : ℕ) → IsSameBook first_past (start_of first names base) }
    ensures over { (book : List Event) (facts : Facts) (events : List Event)
        → AreCausal (past_of book) facts events → IsSameBook (past_of book) facts → IsSameBook (past_of (book ++ events)) (facts_over facts events) }
    // So at each moment inside them.
    ensures front { (past : Past) (facts : Facts) (front rest : List Event) → AreCausal past facts (front ++ rest) → AreCausal past facts front }
    // An input of an agent with the delivery before it, a tick with what comes in it, a loss and all else that isn't the key store's.
    ensures members { (past : Past) (facts : Facts) (events : List Event) → AllAre IsOfMembers events → AreNumberedAbove facts.sent events → AreCausal past facts events }
{}

/// A delivery to the key store of a message that the book has in flight is shown by its events, and they leave the same by the law as by
/// the book.
pub fn deliveries()
    ensures granted { (declared : Declared) (book : List Event) (facts : Facts) (volatile_states : ℕ → VolatileState) (tick : Ticks) (i j : ℕ) (carried : InFlightFacts) (by : Member) (incarnation sequence : ℕ) (txn : Txn) (standbys : List Name)
        → IsSameBook (past_of book) facts
        → in_flight facts.flight i ≡ Some carried
        → carried.message ≡ record { from = ToMember by; to = Store; incarnation = incarnation; sequence = sequence; body = bodies.Request txn }
        → facts.sent < j → IsSpannedTxn txn
        → decision_on facts.keys facts.clock txn ≡ Grants
        → let events = granted_events tick i j by incarnation sequence txn standbys in
        IsShown declared book volatile_states (record { action = Deliver i j true; events = events; volatile_states = volatile_states }) × IsSameBook (past_of (book ++ events)) (facts_over facts events) }
    ensures refused { (declared : Declared) (book : List Event) (facts : Facts) (volatile_states : ℕ → VolatileState) (tick : Ticks) (i j : ℕ) (carried : InFlightFacts) (by : Member) (incarnation sequence : ℕ) (txn : Txn) (request : TxnKind) (key : Key) (found : Expected)
        → IsSameBook (past_of book) facts
        → in_flight facts.flight i ≡ Some carried
        → carried.message ≡ record { from = ToMember by; to = Store; incarnation = incarnation; sequence = sequence; body = bodies.Request txn }
        → facts.sent < j
        → decision_on facts.keys facts.clock txn ≡ Refusal key found
        → let events = refused_events tick i j by incarnation sequence request key found in
        IsShown declared book volatile_states (record { action = Deliver i j false; events = events; volatile_states = volatile_states }) × IsSameBook (past_of (book ++ events)) (facts_over facts events) }
    ensures read { (declared : Declared) (book : List Event) (facts : Facts) (volatile_states : ℕ → VolatileState) (tick : Ticks) (i j : ℕ) (carried : InFlightFacts) (by : Member) (incarnation sequence : ℕ)
        → IsSameBook (past_of book) facts
        → in_flight facts.flight i ≡ Some carried
        → carried.message ≡ record { from = ToMember by; to = Store; incarnation = incarnation; sequence = sequence; body = bodies.Read }
        → facts.sent < j
        → let events = read_events tick i j by incarnation sequence in
        IsShown declared book volatile_states (record { action = Deliver i j true; events = events; volatile_states = volatile_states }) × IsSameBook (past_of (book ++ events)) (facts_over facts events) }
{}

/// What the law has of a message that comes to an agent.
pub fn heard()
    ensures snapshot { (past : Past) (facts : Facts) (i : ℕ) (carried : InFlightFacts) (member : Member) (incarnation sequence : ℕ)
        → IsSameFlight past facts
        → in_flight facts.flight i ≡ Some carried
        → carried.message ≡ record { from = Store; to = ToMember member; incarnation = incarnation; sequence = sequence; body = bodies.Snapshot }
        → past.flight i ≡ Some (Answered (record { member = member.id.number; incarnation = incarnation; sequence = sequence; leader = seen_of (leader_key_of (find key_cmp Leader carried.snapshot)); failsafe = failsafe_key_of (find key_cmp Failsafe carried.snapshot); grant = None })) }
    ensures granted { (past : Past) (facts : Facts) (i : ℕ) (carried : InFlightFacts) (member : Member) (incarnation sequence request : ℕ) (leased : Bool)
        → IsSameFlight past facts
        → in_flight facts.flight i ≡ Some carried
        → carried.message ≡ record { from = Store; to = ToMember member; incarnation = incarnation; sequence = sequence; body = bodies.Granted request leased }
        → CarriesGrant past i carried member incarnation sequence request leased }
    ensures refused { (past : Past) (facts : Facts) (i : ℕ) (carried : InFlightFacts) (member : Member) (incarnation sequence request : ℕ) (key : Key) (found : Expected)
        → IsSameFlight past facts
        → in_flight facts.flight i ≡ Some carried
        → carried.message ≡ record { from = Store; to = ToMember member; incarnation = incarnation; sequence = sequence; body = bodies.Refused request key found }
        → past.flight i ≡ Some (Answered (record { member = member.id.number; incarnation = incarnation; sequence = sequence; leader = None; failsafe = None; grant = None })) }
    ensures failsafe_request { (past : Past) (facts : Facts) (i : ℕ) (carried : InFlightFacts) (by member : Member) (incarnation sequence : ℕ) (ttl : Ticks)
        → IsSameFlight past facts
        → in_flight facts.flight i ≡ Some carried
        → carried.message ≡ record { from = ToMember by; to = ToMember member; incarnation = incarnation; sequence = sequence; body = bodies.FailsafeRequest ttl }
        → past.flight i ≡ Some (FailsafeRequested (record { member = by.id.number; incarnation = incarnation; sequence = sequence; ttl = ttl.0; sent = carried.sent.0 })) }
    ensures acknowledgement { (past : Past) (facts : Facts) (i : ℕ) (carried : InFlightFacts) (by member : Member) (incarnation sequence : ℕ)
        → IsSameFlight past facts
        → in_flight facts.flight i ≡ Some carried
        → carried.message ≡ record { from = ToMember by; to = ToMember member; incarnation = incarnation; sequence = sequence; body = bodies.FailsafeAnswer true }
        → past.flight i ≡ Some (Acknowledged (record { member = member.id.number; incarnation = incarnation; sequence = sequence; by = by.id.number })) }
{}

/// What is waited for agrees with what is in flight: a question under a new number is the only one of its name, stays the only one while
/// its member asks under others, and a grant of that name has its span and the moment of its sending.
pub fn waiting()
    ensures sent { (past : Past) (number : ℕ) (by : Member) (incarnation sequence last : ℕ) (txn : Txn) → IsLastAsked past.asked by.id.number incarnation last → last < sequence
        → IsAskedOnce (past_after past (Message (Sent number (record { from = ToMember by; to = Store; incarnation = incarnation; sequence = sequence; body = bodies.Request txn })))).asked
        (record { member = by.id.number; incarnation = incarnation; sequence = sequence; sent = past.clock; query = query_of txn }) }
    ensures kept { (past : Past) (kind : EventKind) (question : Question)
        → AsksOnly (λ m incarnation sequence. m ≡ question.member → incarnation ≡ question.incarnation → sequence ≡ question.sequence → ⊥) kind
        → IsAskedOnce past.asked question → IsAskedOnce (past_after past kind).asked question }
    // The numbers of a run's questions, and the runs.
    ensures last { (past : Past) (kind : EventKind) (m incarnation last : ℕ) → AsksOnly (λ by r sequence. by ≡ m → r ≡ incarnation → sequence ≤ last) kind
        → IsLastAsked past.asked m incarnation last → IsLastAsked (past_after past kind).asked m incarnation last }
    ensures later { (asked : ℕ → Option Question) (m incarnation last more : ℕ) → last ≤ more → IsLastAsked asked m incarnation last → IsLastAsked asked m incarnation more }
    ensures incarnation { (past : Past) (kind : EventKind) (m runs : ℕ) → AsksOnly (λ by r sequence. by ≡ m → r ≤ runs) kind
        → IsLastRun past.asked m runs → IsLastRun (past_after past kind).asked m runs }
    ensures new { (asked : ℕ → Option Question) (m runs incarnation : ℕ) → runs < incarnation → IsLastRun asked m runs → IsLastAsked asked m incarnation 0 }
    ensures granted { (past : Past) (facts : Facts) (i : ℕ) (carried : InFlightFacts) (member : Member) (incarnation sequence request : ℕ) (leased : Bool) (question : Question)
        → IsSameFlight past facts
        → in_flight facts.flight i ≡ Some carried
        → carried.message ≡ record { from = Store; to = ToMember member; incarnation = incarnation; sequence = sequence; body = bodies.Granted request leased }
        → IsAskedOnce past.asked question → question.member ≡ member.id.number → question.incarnation ≡ incarnation → question.sequence ≡ sequence
        → (heard : CarriesGrant past i carried member incarnation sequence request leased) × (heard.answers.question ≡ question) }
{}

/// The messages in flight after the events of an input are as a lawful input leaves them, where each message that they send may be sent;
/// and the message that they begin with, which the agent hears, is gone.
pub fn inputs_send()
    ensures flight { (declared : Declared) (past : Past) (volatile_states : ℕ → VolatileState) (m : ℕ) (input : AgentInput) (was agent : Agent) (events : List Event)
        → let s = state_of declared past volatile_states in
        AllAre (SendsOnly (MaySend s m input was agent) past.clock) events
        → (i : ℕ) (flying : Flying) → (past_over past events).flight i ≡ Some flying → (s.flight i ≡ Some flying) ⊎ MaySend s m input was agent flying }
    ensures gone { (past : Past) (event : Event) (events : List Event) (last n : ℕ)
        → event.kind ≡ Message (Delivered n) → n ≤ last → AreNumberedAbove last events → (past_over past (event ∷ events)).flight n ≡ None }
{}

/// A book leaves the same deadlines, holds, incarnations and writers of its members by the law's definitions as by its own.
pub fn same_machines()
    ensures first { (first : Settings) (names : List Name) (base : ℕ) → IsSameMachines first_past (start_of first names base) }
    ensures each { (past : Past) (facts : Facts) (kind : EventKind) → IsSameMachines past facts → IsSameMachines (past_after past kind) (facts_after facts kind) }
    // So each book does.
    ensures book { (first : Settings) (names : List Name) (base : ℕ) (book : List Event) → IsSameMachines (past_of book) (facts_over (start_of first names base) book) }
    ensures count { (first : Settings) (names : List Name) (base : ℕ) (book : List Event) → length (facts_over (start_of first names base) book).processes ≡ length names }
    // Writers by the law are those that the book's own definition gives, also of numbers that no member has.
    ensures writers { (book : List Event) → (past_of book).writes ≡ writes_over (λ n. false) book }
{}

/// The deadline of a watchdog is one that acknowledgements set only where an event feeds it by acknowledgements.
pub fn fed_by_grants()
    ensures each { (past : Past) (kind : EventKind) (m : ℕ) → FeedsByGrants m kind → past.by_failsafe m ≡ false → (past_after past kind).by_failsafe m ≡ false }
    ensures book { (book : List Event) (m : ℕ) → AllAre (FeedsByGrants m) book → (past_of book).by_failsafe m ≡ false }
{}

/// There are such books with a grant in flight.
pub fn example()
    ensures { (first : Settings) (names : List Name) (base : ℕ) (by : Member) (info : MemberInfo)
        → AreCausal first_past (start_of first names base) (asked_and_granted by info) × ((past_of (asked_and_granted by info)).flight 2 ≡ Some (Answered (answer_flying by))) }
{}

/// A front of events in which only who may begin begins is one.
pub fn beginnings_fall()
    ensures { (s : State) (action : Action) (before front rest : List Event)
        → BeginsBehind (MayBeginBehind s action) before (front ++ rest) → BeginsBehind (MayBeginBehind s action) before front }
{}
