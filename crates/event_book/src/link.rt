//! Links between members and the key store.

use crate::Member;
use pat_base::MOST_MEMBERS;
use std::fmt;

/// How many ends links may have: the members and the key store.
const ENDS: usize = MOST_MEMBERS + 1;

/// One end of a link.
#[derive(Clone, Copy, PartialEq, Eq)]
pub enum LinkEnd {
    Store,
    Member(Member),
}

/// The link between two ends, in the order in which they were named.
#[derive(Clone, Copy, PartialEq, Eq)]
pub struct Link {
    pub first: LinkEnd,
    pub second: LinkEnd,
}

impl LinkEnd {
    ghost use Rattle.std.specs.Prelude.{◌≡◌, ◌<◌};
    ghost use Rattle.event_book.specs.Links.{end_count, end_number, end_text};

    /// What a script calls it.
    pub fn as_str(&self) -> &str
        ensures { result.now ≡ end_text self.now }
    {
        match self {
            LinkEnd::Store => "store",
            LinkEnd::Member(member) => member.name.as_str(),
        }
    }

    /// The number of a member, or the first that no member has, for the key store.
    pub fn number(self) -> u8
        ensures number { result ≡ end_number self }
        ensures within { result < end_count }
    {
        match self {
            LinkEnd::Store => MOST_MEMBERS as u8,
            LinkEnd::Member(member) => member.id.number,
        }
    }
}

impl fmt::Display for LinkEnd {
    ghost use Rattle.std.specs.Prelude.{Some};
    ghost use Rattle.event_book.specs.Links.{end_text};

    ghost output = { λ end. Some (end_text end) };

    fn fmt<W: fmt::Write>(&self, f: &mut fmt::Formatter<W>) -> fmt::Result {
        f.write_str(self.as_str())
    }
}

impl Link {
    ghost use Rattle.std.specs.Prelude.{◌≡◌, ◌<◌};
    ghost use Rattle.event_book.specs.Links.{link_place, place_count};

    /// How many places a table of links has.
    pub const PLACES: usize = ENDS * ENDS;

    /// The place of this link in a table of links, from 0. Links have one place where they have the same ends, whichever
    /// end is named first.
    pub fn place(self) -> usize
        ensures place { result ≡ link_place self }
        ensures within { result < place_count }
    {
        let (first, second) = (self.first.number() as usize, self.second.number() as usize);
        first.min(second) * ENDS + first.max(second)
    }
}
