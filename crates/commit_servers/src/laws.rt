//! Laws of servers and logs: what holds of them at each moment, and that what may happen to them are actions.
ghost use Rattle.std.specs.Prelude.{ℕ, ◌≡◌, ◌<◌, ◌≤◌, ◌^◌, ◌++◌, true, Bool, List, [], ◌∷◌, length, Option, Some, None};
ghost use Rattle.pat_base.specs.declared.name.Name.{Name};
ghost use Rattle.pat_base.specs.declared.lsn.Lsn.{Lsn};
ghost use Rattle.pat_base.specs.declared.member_set.MemberSet.{MemberSet};
ghost use Rattle.pat_base.specs.declared.server_state.Required.{Required};
ghost use Rattle.pat_base.specs.declared.server_state.Required.TheVariants as requireds;
ghost use Rattle.pat_base.specs.declared.server_state.State.{State};
ghost use Rattle.pat_base.specs.declared.ticks.Ticks.{Ticks};
ghost use Rattle.pat_base.specs.ServerState.{writes, live};
ghost use Rattle.store_keys.specs.Settings.{Settings};
ghost use Rattle.pg_model.specs.Facts.{ServerFacts};
ghost use Rattle.pg_model.specs.Replication.{is_met};
ghost use Rattle.event_book.specs.declared.event.Event.{Event};
ghost use Rattle.event_book.specs.declared.event.EventKind.{EventKind};
ghost use Rattle.event_book.specs.Facts.{Facts, facts_after, facts_over, start_of};
ghost use Rattle.event_book.specs.Functions.{put_at};
ghost use Rattle.event_book.specs.Logs.{logs_in};
ghost use Rattle.event_book.specs.Required.{required_in, confirmed_in};
ghost use Rattle.event_book.specs.Writers.{BeginsKind};
ghost use Rattle.commit_actions.specs.Actions.{Kill, IsAllowed};
ghost use Rattle.commit_showing.specs.Books.{AllHaveBytes, ChangeOnce, IsShown, KeepsNow, first_volatile_states};
ghost use Rattle.commit_actions.specs.Carried.{IsSound};
ghost use Rattle.commit_actions.specs.Keys.{Meets};
ghost use Rattle.commit_actions.specs.Past.{Setup, Past, VolatileState, first_past, confirmers_in, past_after, past_over, position_of, state_of};
ghost use Rattle.commit_showing.specs.Showing.{event_at};
ghost use Rattle.commit_actions.specs.States.{Agent, HasLog, Reaches};
ghost use Rattle.commit_servers.specs.Matching.{IsSameServers, live_in, volatile_after, volatile_over};
ghost use Rattle.commit_servers.specs.Sound.{AreServersSound, IsServerSound, WaitsForMembers};
ghost use Rattle.commit_servers.specs.Happening.{MayHappen, MayFollow, MovesOnly, LeavesSound, AreInPlace};
ghost use Rattle.commit_servers.specs.Acting.{Fits, Leads, AreActions, IsAside};
ghost use Rattle.pat_base.specs.declared.member_id.TheConstants.{MOST_MEMBERS};

/// A book leaves the same logs, required lists, confirmed positions, writers and acknowledged commits by the law's definitions as by its
/// own: each event keeps it, if only the server of a member begins.
pub fn same_servers()
    ensures first { (first : Settings) (names : List Name) (base : ℕ) → let facts = start_of first names base in
        IsSameServers (first_past (logs_in facts) (required_in facts.servers) (confirmed_in facts.servers)) facts }
    ensures each { (past : Past) (facts : Facts) (kind : EventKind) → BeginsKind (λ server. server < length facts.servers) kind
        → IsSameServers past facts → IsSameServers (past_after past kind) (facts_after facts kind) }
{}

/// Each server is sound before the first event, over a base that a head may say, and stays so behind each event that leaves servers sound.
pub fn servers_are_sound()
    ensures first { (first : Settings) (names : List Name) (base : ℕ) → base ≤ 2 ^ 40 → AreServersSound (start_of first names base) }
    ensures each { (facts : Facts) (kind : EventKind) → LeavesSound facts kind → AreServersSound facts → AreServersSound (facts_after facts kind) }
    // An event that may happen beside inputs of agents leaves servers sound.
    ensures may { (facts : Facts) (kind : EventKind) → MayHappen facts kind → LeavesSound facts kind }
    // What the law of commits asks of logs before the first event, and what is needed of members.
    ensures bytes { (first : Settings) (names : List Name) (base : ℕ) → 1 ≤ base → AllHaveBytes (logs_in (start_of first names base)) }
    ensures members { (first : Settings) (names : List Name) (base : ℕ) → length names ≤ MOST_MEMBERS → AreInPlace (start_of first names base).members }
    // A required list of sixteen bits is of members.
    ensures sets { (set : MemberSet) → set.bits < 2 ^ MOST_MEMBERS → WaitsForMembers (requireds.All set) }
    // Who accepts writes is live, and who is live has a log.
    ensures writers { (state : State) → writes state ≡ true → live state ≡ true }
    ensures logs { (commits : ℕ) (s : ServerFacts) → IsServerSound commits s → live s.state ≡ true → HasLog s.log }
{}

/// The server's test that a commit's end is confirmed says, where the commit waits for a set, that each member of it has confirmed that end
/// in the law's words; where it waits for any one, the law counts nobody.
pub fn required_is_met()
    ensures met { (member_count : ℕ) (required : Required) (end : Lsn) (confirmed : List (Option Lsn)) → length confirmed ≡ MOST_MEMBERS → WaitsForMembers required
        → is_met required end confirmed ≡ true → Meets member_count (confirmers_in required) (λ n. Reaches end.position (position_of (Some confirmed) n)) }
    ensures sets { (member_count : ℕ) (set : MemberSet) (end : Lsn) (confirmed : List (Option Lsn))
        → Meets member_count (confirmers_in (requireds.All set)) (λ n. Reaches end.position (position_of (Some confirmed) n)) → is_met (requireds.All set) end confirmed ≡ true }
{}

/// All fits before the first event, and behind each event that changes no server but those whose start or stop is complete with a tick.
pub fn all_fits()
    ensures first { (first : Settings) (names : List Name) (base : ℕ) → base ≤ 2 ^ 40 → let facts = start_of first names base in
        Fits (first_past (logs_in facts) (required_in facts.servers) (confirmed_in facts.servers)) facts first_volatile_states }
    ensures aside { (past : Past) (facts : Facts) (volatile_states : ℕ → VolatileState) (kind : EventKind) → IsAside kind
        → Fits past facts volatile_states → Fits (past_after past kind) (facts_after facts kind) volatile_states }
    // Agents are any.
    ensures agents { (past : Past) (facts : Facts) (volatile_states : ℕ → VolatileState) (m : ℕ) (agent : Option Agent)
        → Fits past facts volatile_states → Fits past facts (put_at volatile_states m (record (volatile_states m) { agent = agent })) }
    // What happens at one server leaves others live, or not, as they were.
    ensures others { (facts : Facts) (kind : EventKind) (m n : ℕ) → MovesOnly m kind → (n ≡ m → ⊥)
        → live_in (facts_after facts kind).servers n ≡ live_in facts.servers n }
{}

/// What may happen to servers and logs is one allowed action, which the event shows, whatever agents there are; and all fits behind it.
pub fn events_are_actions()
    ensures one { (setup : Setup) (past : Past) (facts : Facts) (volatile_states : ℕ → VolatileState) (kind : EventKind)
        → Fits past facts volatile_states → MayHappen facts kind → Leads setup past facts volatile_states kind (volatile_after volatile_states kind) }
    // So it is of events one after another.
    ensures all { (setup : Setup) (past : Past) (facts : Facts) (volatile_states : ℕ → VolatileState) (events : List Event)
        → Fits past facts volatile_states → MayFollow facts events → AreActions setup past facts volatile_states events }
    // An agent that ends with its machine ends without an event of its own.
    ensures killed { (setup : Setup) (past : Past) (volatile_states : ℕ → VolatileState) (m : ℕ)
        → IsAllowed (state_of setup past volatile_states) (Kill m)
        × IsShown setup past volatile_states (record { action = Kill m; events = []; volatile_states = put_at volatile_states m (record (volatile_states m) { agent = None }) }) }
{}

/// Behind such actions what is carried holds again, and commits are kept at each moment of them.
pub fn actions_keep_commits()
    ensures carried { (setup : Setup) (past : Past) (facts : Facts) (volatile_states : ℕ → VolatileState) (events : List Event)
        → AreActions setup past facts volatile_states events → IsSound (state_of setup past volatile_states)
        → IsSound (state_of setup (past_over past events) (volatile_over volatile_states events)) }
    ensures inside { (setup : Setup) (past : Past) (facts : Facts) (volatile_states : ℕ → VolatileState) (events front back : List Event)
        → AreActions setup past facts volatile_states events → IsSound (state_of setup past volatile_states)
        → front ++ back ≡ events → KeepsNow (past_over past front) }
    // One event changes once what commits being kept speaks of.
    ensures once { (tick : Ticks) (kind : EventKind) → ChangeOnce (event_at tick kind) }
{}

/// There are such books in which a commit is acknowledged that a standby was waited for to confirm.
pub fn example()
    ensures { (first : Settings) (name other : Name) → let start = start_of first (name ∷ other ∷ []) 8 in
        (before : List Event) × (volatile_states : ℕ → VolatileState) × (events : List Event)
        × Fits (past_over (first_past (logs_in start) (required_in start.servers) (confirmed_in start.servers)) before) (facts_over start before) volatile_states
        × MayFollow (facts_over start before) events
        × ((facts_over (facts_over start before) events).acknowledged ≡ 1 ∷ []) }
{}
