//! The order of required lists and sync key in synchronous mode (Patroni, "Replication modes"): laws of every allowed action.
ghost use Rattle.std.specs.Prelude.{ℕ, ◌≡◌, ◌<◌, ◌++◌, Bool, true, List, Some};
ghost use Rattle.event_book.specs.declared.event.Event.{Event};
ghost use Rattle.commit_actions.specs.Actions.{IsAllowed};
ghost use Rattle.commit_showing.specs.Books.{IsShown, Transition};
ghost use Rattle.commit_actions.specs.Carried.{IsSound};
ghost use Rattle.commit_actions.specs.Flights.{PublishStandbys, SyncRequest};
ghost use Rattle.commit_actions.specs.Inputs.{AgentInput, IsLawful, Sending};
ghost use Rattle.commit_actions.specs.Keys.{strict_quorum};
ghost use Rattle.commit_actions.specs.Past.{Past, Setup, VolatileState, past_over, state_of};
ghost use Rattle.commit_law.specs.Noted.{AreNoted};
ghost use Rattle.commit_showing.specs.Changes.{ChangeOrderOnce};
ghost use Rattle.commit_showing.specs.Order.{IsAwaiting, IsOverlapping, NamesMembers};
ghost use Rattle.commit_showing.specs.Requests.{MayBePublished, PublishesAwaited};

/// Where what commits rest on is sound, the sync key names who accepts writes as the leader, and its required list overlaps the standbys in it:
/// between two actions, and at each moment inside an allowed one that changes the order at most once. So its commits wait for each standby there,
/// where the sync key names members alone, of which none may lack a commit.
pub fn order_is_kept()
    ensures between { (setup : Setup) (past : Past) (volatile_states : ℕ → VolatileState)
        → IsSound (state_of setup past volatile_states) → IsOverlapping setup.member_count past }
    ensures inside { (setup : Setup) (past : Past) (volatile_states : ℕ → VolatileState) (transition : Transition) (front back : List Event)
        → IsSound (state_of setup past volatile_states)
        → IsAllowed (state_of setup past volatile_states) transition.action
        → IsShown setup past volatile_states transition
        → ChangeOrderOnce transition.events
        → front ++ back ≡ transition.events
        → IsOverlapping setup.member_count (past_over past front) }
    ensures strict { (member_count : ℕ) (past : Past) → IsOverlapping member_count past → NamesMembers member_count strict_quorum past.sync → IsAwaiting past }
{}

/// A lawful input that asks to publish standbys, however many of them may lack a commit, compares the present sync key. They overlap its leader's
/// required list, and may stand in place of those in that key, by who has confirmed, since the server last began, the position that the leader
/// noted, and the end that its log had when its required list last grew. So where none may lack one, commits wait for each, and each that is new
/// has confirmed both.
pub fn publications_are_confirmed()
    ensures any { (setup : Setup) (past : Past) (volatile_states : ℕ → VolatileState) (leader : ℕ) (input : AgentInput) (sending : Sending) (standbys : ℕ → Bool) (quorum : ℕ)
        → IsSound (state_of setup past volatile_states)
        → AreNoted (state_of setup past volatile_states).members past.grown
        → IsLawful (state_of setup past volatile_states) leader input
        → input.sends ≡ Some sending
        → sending.request.aim ≡ PublishStandbys standbys quorum
        → MayBePublished setup.member_count past leader input.agent.noted sending.request standbys quorum }
    ensures strict { (member_count : ℕ) (past : Past) (leader noted : ℕ) (request : SyncRequest) (standbys : ℕ → Bool)
        → MayBePublished member_count past leader noted request standbys strict_quorum
        → ((standby : ℕ) → standbys standby ≡ true → standby < member_count)
        → PublishesAwaited past leader noted request standbys }
{}
