//! Declared members, and servers.

use pat_base::{MemberId, Name, ServerId};

/// A member that the script declares: its number in the order of the script, and its name.
#[derive(Clone, Copy, PartialEq, Eq)]
pub struct Member {
    pub id: MemberId,
    pub name: Name,
}

/// A server: its number, and the name of the member whose server it is.
#[derive(Clone, Copy, PartialEq, Eq)]
pub struct ServerOf {
    pub id: ServerId,
    pub name: Name,
}

impl ServerOf {
    ghost use Rattle.std.specs.Prelude.{◌≡◌};
    ghost use Rattle.event_book.specs.Members.{server_of};

    /// The server of a member.
    pub fn of(member: Member) -> ServerOf
        ensures { result ≡ server_of member }
    {
        ServerOf {
            id: ServerId::of(member.id),
            name: member.name,
        }
    }
}
