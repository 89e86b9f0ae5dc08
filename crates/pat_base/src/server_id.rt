//! Servers by number.
ghost use Rattle.std.specs.Prelude.{◌≡◌, ◌≤◌, ◌<◌, ◌↔◌, IsSome, IfSome};
ghost use Rattle.pat_base.specs.declared.member_id.TheConstants.{MOST_MEMBERS};

use crate::{MOST_MEMBERS, MemberId};

/// A server, by its number: that of the member whose server it is, or the first that no member has, for the remote
/// primary that a replica cluster follows (Patroni, "Standby cluster").
#[derive(Clone, Copy, Debug, PartialEq, Eq, PartialOrd, Ord)]
pub struct ServerId {
    /// From 0, and at most the number of members that there may be.
    pub number: u8,
    ghost within: { number ≤ MOST_MEMBERS },
}

impl ServerId {
    /// The server of this number. `None` exactly where the number is above that of the remote primary.
    pub fn new(number: u8) -> Option<ServerId>
        ensures found { IsSome result ↔ (number ≤ MOST_MEMBERS) }
        ensures value { IfSome result (λ server. server.number ≡ number) }
    {
        if usize::from(number) <= MOST_MEMBERS {
            Some(ServerId { number })
        } else {
            None
        }
    }

    /// The server of this member.
    pub fn of(member: MemberId) -> ServerId
        ensures { result.number ≡ member.number }
    {
        ServerId {
            number: member.number,
        }
    }

    /// The member whose server this is. `None` exactly for the remote primary.
    pub fn member(self) -> Option<MemberId>
        ensures found { IsSome result ↔ (self.number < MOST_MEMBERS) }
        ensures value { IfSome result (λ member. member.number ≡ self.number) }
    {
        MemberId::new(self.number)
    }
}
