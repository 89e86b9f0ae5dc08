//! What a request to all other members comes to, whatever they answer and in whatever order. Each is a function without a
//! body whose contract is what is proved.
ghost use Rattle.std.specs.Prelude.{ℕ, ◌≡◌, ◌↔◌, ◌==◌, ◌&&◌, not, List, Some, None, true};
ghost use Rattle.pat_base.specs.declared.member_id.MemberId.{MemberId};
ghost use Rattle.pat_base.specs.declared.member_set.MemberSet.{MemberSet};
ghost use Rattle.pat_base.specs.declared.ticks.Ticks.{Ticks};
ghost use Rattle.cluster_view.specs.Snapshots.{SnapshotFacts};
ghost use Rattle.failsafe.specs.Asks.{has, asked, moment_of_all};
ghost use Rattle.failsafe.specs.Hearings.{Hearing, heard_all, first_yes, AllSaidYes};
ghost use Rattle.failsafe.specs.Listing.{is_present, present_in, without_member};

/// While one member that was asked hasn't said yes, the request isn't acknowledged, whatever the others said and however
/// often; and where it isn't, there is such a member.
pub fn one_silent_member_is_enough()
    ensures { (members : MemberSet) (made : Ticks) (hearings : List Hearing) → (moment_of_all (heard_all (asked members made) hearings) ≡ None) ↔ ((k : ℕ) × (has members k ≡ true) × (first_yes k hearings ≡ None)) }
{}

/// Where it is, each of them said yes, and the moment is the earliest at which one did so first: a later yes of the same
/// member, and what others say, changes nothing.
pub fn each_yes_counts_once()
    ensures { (members : MemberSet) (made : Ticks) (hearings : List Hearing) (moment : Ticks) → moment_of_all (heard_all (asked members made) hearings) ≡ Some moment → AllSaidYes members made hearings moment }
{}

/// Whom a leader lists are the members that have a member key, and of those that it knows it asks all but itself.
pub fn who_is_listed()
    ensures present { (seen : SnapshotFacts) (member : MemberId) → has (present_in seen) member.number ≡ is_present seen member }
    ensures others { (known : MemberSet) (me : MemberId) (k : ℕ) → has (without_member known me) k ≡ (has known k && not (k == me.number)) }
{}
