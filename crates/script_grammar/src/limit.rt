//! What a script may pass.
ghost use Rattle.std.specs.Prelude.{◌≡◌, ◌≤◌, length};
ghost use Rattle.script_grammar.specs.Limits.{limit_text};

use std::fmt;

/// A limit that a script may pass.
#[derive(Clone, Copy, Debug, PartialEq, Eq)]
pub enum Limit {
    /// 1,048,576 bytes.
    Bytes,
    /// 100,000 lines: the line feeds, and one for an unended last line.
    Lines,
    /// As many lines as there may be members, whose first word is `member`, whatever follows it.
    Members,
    /// 1,000,000 ticks of 100 ms, in all lines that are `tick N` or `run N` and nothing else, with those that come beside them.
    Ticks,
}

/// What a limit is called, in at most 32 bytes.
pub fn limit_text(limit: Limit) -> &'static str
    ensures text { result.now ≡ limit_text limit }
    ensures short { length result.now ≤ 32 }
{
    match limit {
        Limit::Bytes => "bytes",
        Limit::Lines => "lines",
        Limit::Members => "members",
        Limit::Ticks => "ticks",
    }
}

impl fmt::Display for Limit {
    ghost use Rattle.std.specs.Prelude.{Some};
    ghost use Rattle.script_grammar.specs.Limits.{limit_text};

    ghost output = { λ limit. Some (limit_text limit) };

    fn fmt<W: fmt::Write>(&self, f: &mut fmt::Formatter<W>) -> fmt::Result {
        f.write_str(limit_text(*self))
    }
}
