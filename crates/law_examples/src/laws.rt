//! Runs that meet all conditions of a law.
ghost use Rattle.std.specs.Prelude.{◌≡◌, true, false, List, [], ◌∷◌, Some};
ghost use Rattle.commit_actions.specs.Actions.{Action, MayFollow, start_with, state_after};
ghost use Rattle.commit_actions.specs.States.{State};
ghost use Rattle.event_book.specs.Writers.{AcceptsWrites};
ghost use Rattle.lease_model.specs.Books.{Transition, first_volatile_states, book_of};
ghost use Rattle.lease_model.specs.Claims.{AreLawful};
ghost use Rattle.event_book.specs.Premises.{IsTimely};
ghost use Rattle.lease_model.specs.States.{Declared};
ghost use Rattle.store_keys.specs.declared.value.MemberInfo.{MemberInfo};
ghost use Rattle.pat_base.specs.declared.name.Name.{Name};

/// There are lawful and timely runs in which a server accepts writes.
pub fn a_server_can_write()
    ensures { (name : Name) (info : MemberInfo) (standbys : List Name) → let declared : Declared = record { margin = λ m. Some 50; failsafe = false } in
        (transitions : List Transition) × AreLawful declared [] first_volatile_states transitions × IsTimely declared.margin (book_of transitions) × AcceptsWrites (book_of transitions) 0 }
{}

/// There are allowed runs in which a standby takes over after an acknowledged commit.
pub fn commits_can_be_kept()
    // In synchronous mode.
    ensures synchronous { let start : State = start_with false 2 (λ m. record { serial = 0; timeline = 1; bytes = 8 } ∷ []) in
        (actions : List Action) × MayFollow start actions × (((state_after start actions).members 1).writes ≡ true) × ((state_after start actions).acknowledged ≡ 1 ∷ 2 ∷ []) }
    // In quorum mode with failsafe mode, by a race of which the snapshot was read while the leader went on without its leader key.
    ensures quorum { let start : State = start_with true 3 (λ m. record { serial = 0; timeline = 1; bytes = 8 } ∷ []) in
        (actions : List Action) × MayFollow start actions × (((state_after start actions).members 1).writes ≡ true) × ((state_after start actions).acknowledged ≡ 1 ∷ []) }
{}
