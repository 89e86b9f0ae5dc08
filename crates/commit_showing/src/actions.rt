//! Laws of books whose events are allowed actions.
ghost use Rattle.std.specs.Prelude.{ℕ, ◌≡◌, ◌++◌, true, List, Option, Some};
ghost use Rattle.pat_base.specs.declared.lsn.Lsn.{Lsn};
ghost use Rattle.pat_base.specs.declared.server_state.Required.{Required};
ghost use Rattle.event_book.specs.declared.event.Event.{Event};
ghost use Rattle.event_book.specs.declared.event.EventKind.{EventKind};
ghost use Rattle.event_book.specs.Kept.{KeepsCommits};
ghost use Rattle.event_book.specs.Logs.{Logs};
ghost use Rattle.lease_model.specs.Leases.{LeaderKey};
ghost use Rattle.commit_actions.specs.Actions.{IsAllowed, MayRenew};
ghost use Rattle.commit_showing.specs.Books.{Transition, IsShown, ChangeOnce, AreAllowed, AllHaveBytes, KeepsNow, book_of, first_volatile_states};
ghost use Rattle.commit_actions.specs.Carried.{IsSound};
ghost use Rattle.commit_showing.specs.FromLease.{LeaseGives};
ghost use Rattle.commit_actions.specs.Past.{Setup, Past, VolatileState, CarryQuery, first_past, past_after, past_over, state_of};
ghost use Rattle.commit_showing.specs.Renewals.{AreCarriedLive, ComparesGiven};
ghost use Rattle.commit_showing.specs.ShownActions.{ActionsAreShown};

/// Commits are kept: each server that accepts writes holds every acknowledged commit, at every moment of an allowed run, also inside an action.
pub fn commits_are_kept()
    ensures { (setup : Setup) (logs : Logs) (required : List Required) (confirmed : List (List (Option Lsn))) (transitions : List Transition) (front rest : List Event)
        → AllHaveBytes logs
        → AreAllowed setup (first_past logs required confirmed) first_volatile_states transitions
        → front ++ rest ≡ book_of transitions
        → KeepsCommits logs front }
{}

/// The same action by action, for who keeps no list of them: what is carried holds of the empty book, and an allowed action keeps it;
/// where it holds, commits are kept at each moment of the next action.
pub fn carried()
    ensures first { (setup : Setup) (logs : Logs) (required : List Required) (confirmed : List (List (Option Lsn)))
        → AllHaveBytes logs → IsSound (state_of setup (first_past logs required confirmed) first_volatile_states) }
    ensures kept { (setup : Setup) (past : Past) (volatile_states : ℕ → VolatileState) (transition : Transition)
        → IsSound (state_of setup past volatile_states)
        → IsAllowed (state_of setup past volatile_states) transition.action
        → IsShown setup past volatile_states transition
        → IsSound (state_of setup (past_over past transition.events) transition.volatile_states) }
    ensures inside { (setup : Setup) (past : Past) (volatile_states : ℕ → VolatileState) (transition : Transition) (front back : List Event)
        → IsSound (state_of setup past volatile_states)
        → IsAllowed (state_of setup past volatile_states) transition.action
        → IsShown setup past volatile_states transition
        → ChangeOnce transition.events
        → front ++ back ≡ transition.events
        → KeepsNow (past_over past front) }
{}

/// The events of each action, folded one by one, are the action.
pub fn actions_are_shown()
    ensures { ActionsAreShown }
{}

/// Who asks for a renewal that carries a set for the failsafe key is live: at its grant the action is allowed where the leader key is of the revision that it compares, and its sender's.
pub fn carried_sets()
    ensures first { (logs : Logs) (required : List Required) (confirmed : List (List (Option Lsn))) → AreCarriedLive (first_past logs required confirmed) }
    ensures each { (past : Past) (kind : EventKind) → ComparesGiven past kind → AreCarriedLive past → AreCarriedLive (past_after past kind) }
    ensures granted { (setup : Setup) (past : Past) (volatile_states : ℕ → VolatileState) (i m r : ℕ) (key : LeaderKey)
        → AreCarriedLive past → past.asked i ≡ CarryQuery m r → past.lease.leader ≡ Some key → key.revision ≡ r → key.holder ≡ m
        → MayRenew (state_of setup past volatile_states) true }
{}

/// What the timed lease gives: to an agent that arms, to one that asks in a race, and to a snapshot.
pub fn lease_gives()
    ensures { LeaseGives }
{}
