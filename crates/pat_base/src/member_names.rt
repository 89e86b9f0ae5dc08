//! Members by their names.
ghost use Rattle.std.specs.Prelude.{◌≡◌, position};
ghost use Rattle.pat_base.specs.MemberId.{member_of};
ghost use Rattle.pat_base.specs.MemberNames.{has_name, member_named};

use crate::{Host, MemberId, Name};

/// The member of this name, where these are all members in their order. `None` exactly where none has it.
pub fn member_named(members: &[(Name, Host)], text: &str) -> Option<MemberId>
    ensures { result ≡ member_named members.now text.now }
{
    let place = place_named(members, text)?;
    member_at(place)
}

/// The place of the member of this name.
fn place_named(members: &[(Name, Host)], text: &str) -> Option<usize>
    ensures { result ≡ position (has_name text.now) members.now }
{
    members.iter().position(|(name, _)| name.as_str() == text)
}

/// The member at a place among all members.
fn member_at(place: usize) -> Option<MemberId>
    ensures { result ≡ member_of place }
{
    match u8::try_from(place) {
        Ok(number) => MemberId::new(number),
        Err(_) => None,
    }
}
