//! Lists of names, and text that is printed as it stands.
ghost use Rattle.std.specs.Prelude.{◌≡◌, ◌==◌, OnOk};
ghost use Rattle.std.specs.Int.{bit_at};
ghost use Rattle.event_book.specs.NameLists.{with_name};

use crate::Member;
use crate::name_order::put_name;
use pat_base::{MemberSet, Name};
use std::alloc::{AllocError, Global};
use std::marker::Model;

/// Names, as a line lists them.
#[derive(Drop)]
pub struct Names {
    items: Vec<Name>,
}

impl Model for Names {
    ghost use Rattle.std.specs.Prelude.{List};
    ghost use Rattle.pat_base.specs.declared.name.Name.{Name};

    ghost Value = { List Name };

    ghost view = { λ names. names.items.items };
}

impl Names {
    ghost use Rattle.std.specs.Prelude.{◌≡◌, [], IfOk};
    ghost use Rattle.event_book.specs.NameLists.{names_of, IsListOf};

    /// No name. This takes no memory.
    pub fn none(alloc: Global) -> Names
        ensures { result ≡ [] }
    {
        Names {
            items: Vec::new(alloc),
        }
    }

    /// The names of the members of a set, in byte order, out of the declared members. It fails only for want of memory.
    pub fn of(alloc: Global, set: MemberSet, members: &[Member]) -> Result<Names, AllocError>
        ensures names { IfOk result (λ names. names ≡ names_of set members.now) }
        ensures list { IfOk result (IsListOf set members.now) }
    {
        let mut items = Vec::new(alloc);
        for member in members {
            put_member(&mut items, set, *member)?;
        }
        Ok(Names { items })
    }

    /// The names.
    pub fn as_slice(&self) -> &[Name]
        ensures { result.now ≡ self.now }
    {
        &self.items
    }
}

/// Puts the name of a member of a set at its place.
fn put_member(names: &mut Vec<Name>, set: MemberSet, member: Member) -> Result<(), AllocError>
    ensures { OnOk result (names.new.items ≡ with_name (bit_at set.bits member.id.number == 1) member.name names.old.items) }
{
    if set.contains(member.id) {
        put_name(names, member.name)
    } else {
        Ok(())
    }
}

/// Text that a line prints as it stands.
#[derive(Drop)]
pub struct Bytes {
    text: String,
}

impl Model for Bytes {
    ghost use Rattle.std.specs.Prelude.{ℕ, List, string_bytes};

    ghost Value = { List ℕ };

    ghost view = { λ bytes. string_bytes bytes.text };
}

impl Bytes {
    ghost use Rattle.std.specs.Prelude.{◌≡◌, string_bytes};

    /// This text, to be printed as it stands.
    pub fn new(text: String) -> Bytes
        ensures { result ≡ string_bytes text }
    {
        Bytes { text }
    }

    /// The text.
    pub fn as_str(&self) -> &str
        ensures { result.now ≡ self.now }
    {
        self.text.as_str()
    }
}
