//! Laws of the members that a head declares.
ghost use Rattle.std.specs.Prelude.{ℕ, ◌≡◌, ◌<◌, Some, slice_get};
ghost use Rattle.event_book.specs.declared.member.Member.{Member};
ghost use Rattle.script_model.specs.Script.{HeadText, IsHead};
ghost use Rattle.run_promise.specs.Members.{declared_members, member_count, IsDeclared};

/// Each member that a head declares stands at its number, which is below how many there are.
pub fn members_stand_at_their_numbers()
    ensures declared { (head : HeadText) (i : ℕ) (member : Member) → IsHead head → slice_get (declared_members head) i ≡ Some member → IsDeclared head member }
    ensures within { (head : HeadText) (member : Member) → IsHead head → IsDeclared head member → member.id.number < member_count head }
{}
