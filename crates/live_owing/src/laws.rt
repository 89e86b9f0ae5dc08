//! Laws of what is owed. Each is a function without a body whose contract is what is proved.
ghost use Rattle.std.specs.Prelude.{ℕ, ◌≡◌, ◌≤◌, ◌-◌, ◌↔◌, List, Some, None, true, false};
ghost use Rattle.std.specs.List.{count_by};
ghost use Rattle.pat_base.specs.declared.member_id.MemberId.{MemberId};
ghost use Rattle.live_owing.specs.declared.waiting.Owner.{Owner};
ghost use Rattle.live_owing.specs.declared.waiting.Owner.TheVariants as owners;
ghost use Rattle.live_owing.specs.declared.waiting.Outcome.TheVariants as outcomes;
ghost use Rattle.live_owing.specs.Courses.{IsWaiting, answers_to, asks, owed_behind};
ghost use Rattle.live_owing.specs.Ledger.{HappenedAt, happenings_at, ledger_behind, nothing_owed, owed_at};
ghost use Rattle.live_owing.specs.Owed.{Asked, Happening, Replied, Ticked, given, most_waiting};

/// A reply in a step in which nobody asks goes to this one exactly where, of all that has happened at the member, this one asked last
/// without a reply in the same step, and nothing ended its wait since.
pub fn nobody_gets_anothers_reply()
    ensures { (course : List Happening) (owner : Owner)
        → (given (owed_behind None course) Replied ≡ Some (outcomes.Reply owner)) ↔ ((ticks : ℕ) × IsWaiting owner ticks course) }
{}

/// A client is told that no result came exactly where it is still waiting in its 600th tick, or when another asks in vain.
pub fn no_result_comes_when_it_is_due()
    ensures tick { (course : List Happening) (client : ℕ)
        → (given (owed_behind None course) Ticked ≡ Some (outcomes.NoResult client)) ↔ IsWaiting (owners.Client client) (most_waiting - 1) course }
    ensures asked { (course : List Happening) (client : ℕ) (asker : Owner)
        → (given (owed_behind None course) (Asked asker false) ≡ Some (outcomes.NoResult client)) ↔ ((ticks : ℕ) × IsWaiting (owners.Client client) ticks course) }
{}

/// Nobody is answered more often than it asked, by replies and `No result in time` together.
pub fn nobody_is_answered_twice()
    ensures { (course : List Happening) (owner : Owner) → answers_to owner None course ≤ count_by (asks owner) course }
{}

/// What is owed at a member comes of what happened there, and of nothing that happened at another.
pub fn members_are_apart()
    ensures { (course : List HappenedAt) (member : MemberId)
        → owed_at (ledger_behind nothing_owed course) member ≡ owed_behind None (happenings_at member course) }
{}
