//! Laws of every run.
ghost use Rattle.std.specs.Prelude.{ℕ, ◌≡◌, ◌+◌, ◌++◌, Bool, true, false, List, [], ◌∷◌, Option, Some};
ghost use Rattle.pat_base.specs.declared.name.Name.{Name};
ghost use Rattle.pat_base.specs.declared.ticks.Ticks.{Ticks};
ghost use Rattle.lease_store.specs.Decision.{decision_on, Refusal, Grant as Grants};
ghost use Rattle.store_keys.specs.Settings.{Settings};
ghost use Rattle.store_keys.specs.declared.key.Key.{Key};
ghost use Rattle.store_keys.specs.declared.txn.Expected.{Expected};
ghost use Rattle.store_keys.specs.declared.txn.Txn.{Txn};
ghost use Rattle.store_keys.specs.declared.txn_kind.TxnKind.{TxnKind};
ghost use Rattle.event_book.specs.Facts.{Facts, facts_after, start_of};
ghost use Rattle.event_book.specs.declared.event.Event.{Event};
ghost use Rattle.event_book.specs.declared.event.EventKind.TheVariants.{Tick as Ticked, Message};
ghost use Rattle.event_book.specs.declared.event.EventKind.{EventKind};
ghost use Rattle.event_book.specs.declared.event.MessageEvent.TheVariants.{Lost};
ghost use Rattle.event_book.specs.declared.member.Member.{Member};
ghost use Rattle.lease_model.specs.Actions.{Action, Tick, Deliver, Lose, Input, act, IsAllowed, MayBegin, taken_by};
ghost use Rattle.lease_model.specs.Books.{Transition, IsShown, AreAllowed, first_volatile_states, book_of, volatile_states_over};
ghost use Rattle.lease_model.specs.Carried.{IsCarried};
ghost use Rattle.lease_model.specs.Claims.{AreLawful, BeginsBehind, IsLawfulTransition, MayBeginBehind};
ghost use Rattle.event_book.specs.Functions.{put_at};
ghost use Rattle.lease_model.specs.Leases.{FailsafeRequest, Requested, Read};
ghost use Rattle.lease_model.specs.Outcomes.{outcome_of};
ghost use Rattle.lease_model.specs.Past.{Past, VolatileState, first_past, past_after, past_of, past_over, machine_of, query_of, state_of};
ghost use Rattle.lease_model.specs.Pauses.{NobodyPauses};
ghost use Rattle.lease_model.specs.Modes.{IsDeclaredMode, LeavesMode};
ghost use Rattle.event_book.specs.Premises.{IsTimely, IsHandsOff, IsHandsOffKind};
ghost use Rattle.event_book.specs.Kinds.{AllAre};
ghost use Rattle.lease_model.specs.States.{Declared, is_due, tick_machine};
ghost use Rattle.lease_model.specs.Stores.{IsSameStore, IsSpanned, is_granted, outcome_by};
ghost use Rattle.lease_model.specs.Showing.{IsOwn, IsLocal, IsLocalAction, input_of, granted_events, refused_events, read_events};
ghost use Rattle.event_book.specs.Writers.{Begins, HasOneWriter};

/// At most one server accepts writes.
pub fn one_writer()
    // At every moment of a lawful run up to which feeds keep the margin, also inside an action.
    ensures timely { (declared : Declared) (transitions : List Transition) (front rest : List Event)
        → AreLawful declared [] first_volatile_states transitions → front ++ rest ≡ book_of transitions → IsTimely declared.margin front → HasOneWriter front }
    // At every moment of a run whose actions are in time.
    ensures whole { (declared : Declared) (transitions : List Transition) (front rest : List Event)
        → AreAllowed declared [] first_volatile_states transitions → front ++ rest ≡ book_of transitions → HasOneWriter front }
    // Of whole actions, and then a front of the next action's events, of which only the beginnings need a reason.
    ensures at { (declared : Declared) (transitions : List Transition) (action : Action) (front : List Event)
        → AreAllowed declared [] first_volatile_states transitions
        → Begins (MayBegin (state_of declared (past_of (book_of transitions)) (volatile_states_over first_volatile_states transitions)) action) front
        → HasOneWriter (book_of transitions ++ front) }
{}

/// The same action by action, for who keeps no list of them: what is carried holds of the empty book, and an allowed action keeps it;
/// where it holds, at most one server accepts writes at each moment of the next action.
pub fn carried()
    ensures first { (declared : Declared) → IsCarried (state_of declared (past_of []) first_volatile_states) }
    ensures kept { (declared : Declared) (book : List Event) (volatile_states : ℕ → VolatileState) (transition : Transition)
        → IsCarried (state_of declared (past_of book) volatile_states)
        → IsAllowed (state_of declared (past_of book) volatile_states) transition.action transition.events
        → IsShown declared book volatile_states transition
        → IsCarried (state_of declared (past_of (book ++ transition.events)) transition.volatile_states) }
    ensures sole { (declared : Declared) (book : List Event) (volatile_states : ℕ → VolatileState) (action : Action) (front : List Event)
        → IsCarried (state_of declared (past_of book) volatile_states)
        → Begins (MayBegin (state_of declared (past_of book) volatile_states) action) front
        → HasOneWriter (book ++ front) }
{}

/// The premises only fall: a front of a book meets what the book meets.
pub fn premises_fall()
    ensures timely { (margin : ℕ → Option ℕ) (front rest : List Event) → IsTimely margin (front ++ rest) → IsTimely margin front }
    ensures hands_off { (first : Settings) (watched : ℕ → Bool) (front rest : List Event)
        → IsHandsOff first watched (front ++ rest) → IsHandsOff first watched front }
{}

/// In a timely book the feeds are in time: a lawful action is allowed, and in a front of its events only who may begin begins.
pub fn feeds_in_time()
    ensures transition { (declared : Declared) (book : List Event) (volatile_states : ℕ → VolatileState) (action : Action) (events : List Event)
        → IsTimely declared.margin (book ++ events)
        → IsLawfulTransition (state_of declared (past_of book) volatile_states) action events
        → IsAllowed (state_of declared (past_of book) volatile_states) action events }
    ensures front { (declared : Declared) (book : List Event) (volatile_states : ℕ → VolatileState) (action : Action) (front : List Event)
        → IsTimely declared.margin (book ++ front)
        → BeginsBehind (MayBeginBehind (state_of declared (past_of book) volatile_states) action) [] front
        → Begins (MayBegin (state_of declared (past_of book) volatile_states) action) front }
{}

/// The events of an input, folded one by one, are the action of the law: where they concern the member's own machine, and say which hold
/// it took, they tell that input.
pub fn input_is_shown()
    ensures { (declared : Declared) (book : List Event) (volatile_states : ℕ → VolatileState) (m : ℕ) (volatile_state : VolatileState) (heard : Option ℕ) (feeds : Bool) (takes : Option FailsafeRequest) (events : List Event)
        → AllAre (IsOwn m) events
        → (past_over (past_of book) events).taken ≡ taken_by m (past_of book).clock takes (past_of book).taken
        → IsShown declared book volatile_states (record { action = Input m (input_of (past_of book) m volatile_state heard feeds takes events); events = events; volatile_states = put_at volatile_states m volatile_state }) }
{}

/// A book leaves the same leader key, failsafe key and last revision by the law's definitions as by the key store's.
pub fn same_store()
    ensures first { (first : Settings) (names : List Name) (base : ℕ) → IsSameStore first_past (start_of first names base) }
    ensures each { (past : Past) (facts : Facts) (kind : EventKind) → IsSpanned kind → IsSameStore past facts → IsSameStore (past_after past kind) (facts_after facts kind) }
    // So the store's decision leaves what the law says.
    ensures decided { (past : Past) (facts : Facts) (by sent : ℕ) (txn : Txn) → IsSameStore past facts
        → let decision = decision_on facts.keys facts.clock txn in
        outcome_of past.clock past.leader past.failsafe past.revision by sent (is_granted decision) (query_of txn)
        ≡ outcome_by decision past.clock past.leader past.failsafe past.revision by sent (query_of txn) }
{}

/// The events of a delivery to the key store, folded, are the action; and any action is shown where what the book leaves is, part by part,
/// the state after it.
pub fn delivery_is_shown()
    ensures granted { (declared : Declared) (book : List Event) (facts : Facts) (volatile_states : ℕ → VolatileState) (tick : Ticks) (i j : ℕ) (by : Member) (incarnation sequence sent : ℕ) (txn : Txn) (standbys : List Name)
        → IsSameStore (past_of book) facts
        → decision_on facts.keys facts.clock txn ≡ Grants
        → (past_of book).flight i ≡ Some (Requested (record { member = by.id.number; incarnation = incarnation; sequence = sequence; sent = sent; query = query_of txn }))
        → IsShown declared book volatile_states (record { action = Deliver i j true; events = granted_events tick i j by incarnation sequence txn standbys; volatile_states = volatile_states }) }
    ensures refused { (declared : Declared) (book : List Event) (facts : Facts) (volatile_states : ℕ → VolatileState) (tick : Ticks) (i j : ℕ) (by : Member) (incarnation sequence sent : ℕ) (txn : Txn) (request : TxnKind) (key : Key) (found : Expected)
        → IsSameStore (past_of book) facts
        → decision_on facts.keys facts.clock txn ≡ Refusal key found
        → (past_of book).flight i ≡ Some (Requested (record { member = by.id.number; incarnation = incarnation; sequence = sequence; sent = sent; query = query_of txn }))
        → IsShown declared book volatile_states (record { action = Deliver i j false; events = refused_events tick i j by incarnation sequence request key found; volatile_states = volatile_states }) }
    ensures read { (declared : Declared) (book : List Event) (volatile_states : ℕ → VolatileState) (tick : Ticks) (i j : ℕ) (by : Member) (incarnation sequence sent : ℕ)
        → (past_of book).flight i ≡ Some (Requested (record { member = by.id.number; incarnation = incarnation; sequence = sequence; sent = sent; query = Read }))
        → IsShown declared book volatile_states (record { action = Deliver i j true; events = read_events tick i j by incarnation sequence; volatile_states = volatile_states }) }
    ensures parts { (declared : Declared) (book : List Event) (volatile_states : ℕ → VolatileState) (transition : Transition)
        → let past = past_of (book ++ transition.events) in let s = act (state_of declared (past_of book) volatile_states) transition.action in
        past.clock ≡ s.clock → past.leader ≡ s.leader → past.failsafe ≡ s.failsafe → past.revision ≡ s.revision
        → ((i : ℕ) → past.flight i ≡ s.flight i) → past.taken ≡ s.taken → ((m : ℕ) → machine_of past (transition.volatile_states m) m ≡ s.members m)
        → IsShown declared book volatile_states transition }
{}

/// While hands are off no snapshot pauses: neither the configuration that the key store holds nor one in a snapshot in flight does.
pub fn nobody_pauses()
    ensures first { (first : Settings) (names : List Name) (base : ℕ) → first.config.pause ≡ false → NobodyPauses (start_of first names base) }
    ensures each { (facts : Facts) (kind : EventKind) → IsHandsOffKind kind → NobodyPauses facts → NobodyPauses (facts_after facts kind) }
{}

/// Failsafe mode is as it was declared in each configuration that the key store holds and in each snapshot in flight, while none is granted that
/// has it otherwise.
pub fn the_mode_is_the_declared_one()
    ensures first { (first : Settings) (names : List Name) (base : ℕ) → IsDeclaredMode first.config.failsafe_mode (start_of first names base) }
    ensures each { (mode : Bool) (facts : Facts) (kind : EventKind) → LeavesMode mode kind → IsDeclaredMode mode facts → IsDeclaredMode mode (facts_after facts kind) }
{}

/// Starts, kills, crashes, what changes nothing, ticks and losses are shown by their events where the machines are as the action leaves them.
pub fn local_action_is_shown()
    ensures local { (declared : Declared) (book : List Event) (volatile_states : ℕ → VolatileState) (transition : Transition)
        → IsLocalAction transition.action → AllAre IsLocal transition.events
        → ((m : ℕ) → machine_of (past_of (book ++ transition.events)) (transition.volatile_states m) m ≡ (act (state_of declared (past_of book) volatile_states) transition.action).members m)
        → IsShown declared book volatile_states transition }
    ensures tick { (declared : Declared) (book : List Event) (volatile_states facts_after : ℕ → VolatileState) (tick : Ticks) (rest : List Event) (stops : ℕ → Bool)
        → AllAre IsLocal rest → let events : List Event = record { tick = tick; kind = Ticked } ∷ rest in let past = past_of book in
        ((m : ℕ) → machine_of (past_of (book ++ events)) (facts_after m) m ≡ tick_machine (is_due (past.clock + 1) (past.deadline m)) (stops m) (machine_of past (volatile_states m) m))
        → IsShown declared book volatile_states (record { action = Tick stops; events = events; volatile_states = facts_after }) }
    ensures loss { (declared : Declared) (book : List Event) (volatile_states : ℕ → VolatileState) (tick : Ticks) (number : ℕ)
        → IsShown declared book volatile_states (record { action = Lose number; events = record { tick = tick; kind = Message (Lost number) } ∷ []; volatile_states = volatile_states }) }
{}
