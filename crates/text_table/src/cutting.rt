//! Titles over rules.
ghost use Rattle.std.specs.Prelude.{◌≡◌, IfOk, drop, string_bytes};
ghost use Rattle.std.specs.Str.{IsAscii};
ghost use Rattle.text_table.specs.Tables.{titled};

use std::alloc::{AllocError, Global};

/// A rule with a title over it.
pub(crate) fn titled(alloc: Global, title: &str, rule: &str) -> Result<String, AllocError>
    requires { IsAscii rule.now }
    ensures { IfOk result (λ line. string_bytes line ≡ titled title.now rule.now) }
{
    let mut line = String::from_str(alloc, "+ ")?;
    line.push_str(title)?;
    line.push_str(" ")?;
    let end = end_of(rule, line.len());
    line.push_str(end)?;
    Ok(line)
}

/// What of a text stands from this place on.
fn end_of(text: &str, place: usize) -> &str
    requires { IsAscii text.now }
    ensures { result.now ≡ drop place text.now }
{
    if place < text.len() {
        &text[place..]
    } else {
        ""
    }
}
