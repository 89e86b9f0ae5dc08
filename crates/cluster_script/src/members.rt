//! The table of members.
ghost use Rattle.std.specs.Prelude.{◌≡◌, ◌<◌, ◌≤◌, length, position, IfSome};
ghost use Rattle.std.specs.Option.{option_and_then};
ghost use Rattle.std.specs.Str.{bytes_eq};
ghost use Rattle.indexmap.specs.IndexMap.{keys};
ghost use Rattle.pat_base.specs.Name.{name_bytes, name_of};
ghost use Rattle.script_grammar.specs.Members.{place_of, member_named};
ghost use Rattle.pat_base.specs.declared.member_id.TheConstants.{MOST_MEMBERS};

use indexmap::IndexMap;
use member_options::MemberOptions;
use pat_base::{MemberId, Name};

/// What a script declares of each member, in the order of their lines.
pub type Members = IndexMap<Name, MemberOptions>;

/// The place of the member of this name.
pub fn place_of(members: &Members, name: Name) -> Option<usize>
    ensures place { result ≡ place_of (keys members.now) name }
    ensures within { IfSome result (λ place. place < length (keys members.now)) }
{
    members.get_index_of(&name)
}

/// The place of the name that these bytes are.
fn place_among(names: &[Name], word: &[u8]) -> Option<usize>
    ensures place { result ≡ position (λ name. bytes_eq (name_bytes name) word.now) names.now }
    ensures within { IfSome result (λ place. place < length names.now) }
{
    names.iter().position(|name| name.as_bytes() == word)
}

/// The place of the member whose name these bytes are. Members are few: a scan costs less than the hash of a name.
fn place_spelled(members: &Members, word: &[u8]) -> Option<usize>
    ensures place { result ≡ option_and_then (place_of (keys members.now)) (name_of word.now) }
    ensures within { IfSome result (λ place. place < length (keys members.now)) }
{
    place_among(members.keys().as_slice(), word)
}

/// The member whose name these bytes are.
pub fn member_spelled(members: &Members, word: &[u8]) -> Option<MemberId>
    requires { length (keys members.now) ≤ MOST_MEMBERS }
    ensures { result ≡ option_and_then (member_named (keys members.now)) (name_of word.now) }
{
    let place = place_spelled(members, word)?;
    MemberId::new(place as u8)
}
