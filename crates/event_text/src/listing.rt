//! Lists of names as text.
ghost use Rattle.std.specs.Prelude.{◌≡◌, ◌++◌, IfOk, OnOk, codes, string_bytes};
ghost use Rattle.event_book.specs.Listing.{listed, listed_from};

use pat_base::Name;
use std::alloc::{AllocError, Global};

/// The names with a blank between each two, or the text for nobody where there is none. It fails only for want of
/// memory.
pub fn listed(alloc: Global, nobody: &str, names: &[Name]) -> Result<String, AllocError>
    ensures { IfOk result (λ text. string_bytes text ≡ listed nobody.now names.now) }
{
    let mut text = String::new(alloc);
    write_listed(&mut text, nobody, names)?;
    Ok(text)
}

/// Ends a line by such a list.
pub fn end_by_list(line: &mut String, nobody: &str, names: &[Name]) -> Result<(), AllocError>
    ensures { OnOk result (string_bytes line.new ≡ string_bytes line.old ++ (listed nobody.now names.now ++ codes "\n")) }
{
    write_listed(line, nobody, names)?;
    line.push_str("\n")
}

/// Appends such a list. It fails only for want of memory.
pub fn write_listed(text: &mut String, nobody: &str, names: &[Name]) -> Result<(), AllocError>
    ensures { OnOk result (string_bytes text.new ≡ string_bytes text.old ++ listed nobody.now names.now) }
{
    match names.split_first() {
        None => text.push_str(nobody),
        Some((first, others)) => write_listed_from(text, *first, others),
    }
}

/// Appends a name, and others each behind a blank.
fn write_listed_from(text: &mut String, first: Name, others: &[Name]) -> Result<(), AllocError>
    ensures { OnOk result (string_bytes text.new ≡ string_bytes text.old ++ listed_from first others.now) }
{
    text.push_str(first.as_str())?;
    for name in others {
        text.push_str(" ")?;
        text.push_str(name.as_str())?;
    }
    Ok(())
}
