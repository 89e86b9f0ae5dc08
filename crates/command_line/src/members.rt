//! Members by their names.
ghost use Rattle.std.specs.Prelude.{◌≡◌, Some, IfSome, slice_get};
ghost use Rattle.script_model.specs.Script.{IsMember, MemberText, names_of};
ghost use Rattle.command_line.specs.Members.{is_named, member_named};

use pat_base::MemberId;
use script_model::Head;

/// The member that a head declares with this name, if there is one.
pub fn member_named(head: &Head, name: &[u8]) -> Option<MemberId>
    ensures value { result ≡ member_named head.now name.now }
    ensures declared { IfSome result (λ id. IsMember (names_of head.now) id) }
{
    for place in 0..head.member_count() {
        if is_named(head, place, name) {
            return MemberId::new(place as u8);
        }
    }
    None
}

/// Whether the member at a place has this name.
fn is_named(head: &Head, place: usize, name: &[u8]) -> bool
    ensures { (member : MemberText) → slice_get head.now.members place ≡ Some member → result ≡ is_named name.now member }
{
    match head.member(place) {
        Some(member) => member.as_bytes() == name,
        None => false,
    }
}
