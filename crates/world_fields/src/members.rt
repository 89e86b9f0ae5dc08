//! Declared members.
ghost use Rattle.std.specs.Prelude.{◌≡◌, Some, slice_get};
ghost use Rattle.script_model.specs.Script.{IsMember};
ghost use Rattle.cluster_model.specs.Steps.{names_in};

use event_book::Member;
use pat_base::MemberId;

/// The declared member of this number.
pub fn declared(members: &[Member], id: MemberId) -> Member
    requires { IsMember (names_in members.now) id }
    ensures { slice_get members.now id.number ≡ Some result }
{
    members[id.number as usize]
}

/// The declared member of this number, if there is one.
pub fn member_at(members: &[Member], id: MemberId) -> Option<Member>
    ensures { result ≡ slice_get members.now id.number }
{
    let member = members.get(id.number as usize)?;
    Some(*member)
}
