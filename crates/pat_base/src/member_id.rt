//! Members by number.
ghost use Rattle.std.specs.Prelude.{◌<◌};
ghost use Rattle.pat_base.specs.declared.member_id.TheConstants.{MOST_MEMBERS};

/// A cluster has at most so many members.
pub const MOST_MEMBERS: usize = 16;

/// A member of a cluster, by its number: its place in the order in which the script declares the members.
#[derive(Clone, Copy, Debug, PartialEq, Eq, PartialOrd, Ord)]
pub struct MemberId {
    /// From 0, and below the number of members that there may be.
    pub number: u8,
    ghost below: { number < MOST_MEMBERS },
}

impl MemberId {
    ghost use Rattle.std.specs.Prelude.{◌≡◌, ◌<◌, ◌↔◌, IsSome, IfSome};
    ghost use Rattle.pat_base.specs.MemberId.{member_of};
    ghost use Rattle.pat_base.specs.declared.member_id.TheConstants.{MOST_MEMBERS};

    /// The member of this number. `None` exactly where no cluster has so many members.
    pub fn new(number: u8) -> Option<MemberId>
        ensures found { IsSome result ↔ (number < MOST_MEMBERS) }
        ensures value { IfSome result (λ member. member.number ≡ number) }
        ensures by_number { result ≡ member_of number }
    {
        if usize::from(number) < MOST_MEMBERS {
            Some(MemberId { number })
        } else {
            None
        }
    }
}
