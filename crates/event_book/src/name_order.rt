//! Names in the order of their bytes.
ghost use Rattle.std.specs.Prelude.{◌≡◌, ◌≤◌, IfOk, IfErr, OnOk, length};
ghost use Rattle.std.specs.List.{insert};
ghost use Rattle.std.specs.BTreeSet.{insert_key};
ghost use Rattle.event_book.specs.NameLists.{name_cmp};

use pat_base::Name;
use std::alloc::AllocError;
use std::cmp::Ordering;

/// Puts a name at its place among names in order, where it isn't there. It fails only for want of memory.
pub fn put_name(names: &mut Vec<Name>, name: Name) -> Result<(), AllocError>
    ensures { OnOk result (names.new.items ≡ insert_key name_cmp names.old.items name) }
{
    match place(names, name) {
        Ok(_) => Ok(()),
        Err(at) => {
            names.insert(at, name)?;
            Ok(())
        }
    }
}

/// Where a name stands, or where it would stand.
fn place(names: &[Name], name: Name) -> Result<usize, usize>
    ensures found { IfOk result (λ at. insert_key name_cmp names.now name ≡ names.now) }
    ensures gap { IfErr result (λ at. insert_key name_cmp names.now name ≡ insert names.now at name) }
    ensures within { IfErr result (λ at. at ≤ length names.now) }
{
    for (at, other) in names.iter().enumerate() {
        match compare(name, *other) {
            Ordering::Less => return Err(at),
            Ordering::Equal => return Ok(at),
            Ordering::Greater => {}
        }
    }
    Err(names.len())
}

fn compare(a: Name, b: Name) -> Ordering
    ensures { result ≡ name_cmp a b }
{
    a.as_bytes().cmp(b.as_bytes())
}
