//! Names of clusters and members.
ghost use Rattle.std.specs.Prelude.{◌≡◌, IsTrue};
ghost use Rattle.std.specs.List.{list_all};
ghost use Rattle.pat_base.specs.NameText.{is_name, is_name_byte};
ghost use Rattle.pat_base.specs.ShortText.{text_bytes};

use crate::short_text::ShortText;
use std::fmt;

/// The longest name, in bytes.
const LONGEST: usize = 32;

/// The name of a cluster or of a member, which Patroni's settings `scope` and `name` give (Patroni, "YAML Configuration
/// Settings", under "Global/Universal"): 1 to 32 bytes of `a` to `z`, `0` to `9`, `_` and `-`. Names are ordered as their
/// bytes are, behind which zeros stand.
#[derive(Clone, Copy, Debug, PartialEq, Eq, PartialOrd, Ord, Hash)]
pub struct Name {
    text: ShortText<LONGEST>,
    ghost legal: { IsTrue (is_name (text_bytes text)) },
}

impl Name {
    ghost use Rattle.std.specs.Prelude.{◌≡◌, ◌↔◌, IsSome, IfSome, IsTrue};
    ghost use Rattle.pat_base.specs.NameText.{is_name};
    ghost use Rattle.pat_base.specs.Name.{name_bytes, name_of};

    /// The name that these bytes are. `None` exactly where they are none.
    pub fn read(bytes: &[u8]) -> Option<Name>
        ensures found { IsSome result ↔ IsTrue (is_name bytes.now) }
        ensures text { IfSome result (λ name. name_bytes name ≡ bytes.now) }
        ensures value { result ≡ name_of bytes.now }
    {
        if is_name(bytes) {
            Some(Name {
                text: ShortText::new(bytes),
            })
        } else {
            None
        }
    }

    /// The bytes of the name, which are ASCII.
    pub fn as_bytes(&self) -> &[u8]
        ensures value { result.now ≡ name_bytes self.now }
        ensures name { IsTrue (is_name result.now) }
    {
        self.text.as_bytes()
    }

    /// The name as text.
    pub fn as_str(&self) -> &str
        ensures { result.now ≡ name_bytes self.now }
    {
        self.text.as_str()
    }
}

impl fmt::Display for Name {
    ghost use Rattle.std.specs.Prelude.{Some};
    ghost use Rattle.pat_base.specs.Name.{name_bytes};

    ghost output = { λ name. Some (name_bytes name) };

    fn fmt<W: fmt::Write>(&self, f: &mut fmt::Formatter<W>) -> fmt::Result {
        f.write_str(self.as_str())
    }
}

fn is_name(bytes: &[u8]) -> bool
    ensures { result ≡ is_name bytes.now }
{
    !bytes.is_empty() && bytes.len() <= LONGEST && are_name_bytes(bytes)
}

fn are_name_bytes(bytes: &[u8]) -> bool
    ensures { result ≡ list_all is_name_byte bytes.now }
{
    bytes.iter().all(|byte| is_name_byte(*byte))
}

fn is_name_byte(byte: u8) -> bool
    ensures { result ≡ is_name_byte byte }
{
    matches!(byte, b'a'..=b'z' | b'0'..=b'9' | b'_' | b'-')
}
