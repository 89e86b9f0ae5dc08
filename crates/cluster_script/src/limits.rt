//! The limits of a script. Bytes that pass one are judged by it before any fault of their lines.
ghost use Rattle.std.specs.Prelude.{◌≡◌, length};
ghost use Rattle.std.specs.Option.{option_copied};
ghost use Rattle.script_words.specs.Lines.{lines_in};
ghost use Rattle.script_grammar.specs.Limits.{is_member_word, member_line_count, ticks_or_none, ticks_behind, ticks_of_words, ticks_in, limit_of_lines, limit_of};

use crate::ScriptLines;
use crate::first_words::keyword_of;
use pat_base::MOST_MEMBERS;
use script_grammar::Limit;
use script_model::Keyword;
use script_words::{cut_line, cut_word, number};

/// The most bytes of a script.
pub(crate) const MOST_BYTES: usize = 1_048_576;

/// The most lines of a script: its line feeds, and one for an unended last line.
const MOST_LINES: usize = 100_000;

/// The most ticks, of 100 ms, of all lines `tick N` and `run N` of a script, with those that come beside them.
const MOST_TICKS: u64 = 1_000_000;

/// What the limits count of lines: how many they are, those of members, and their ticks, which end at the greatest number of 64
/// bits.
#[derive(Clone, Copy)]
struct LineCounts {
    lines: usize,
    members: usize,
    ticks: u64,
}

fn is_member_word(keyword: Option<Keyword>) -> bool
    ensures { result ≡ is_member_word keyword }
{
    matches!(keyword, Some(Keyword::Member))
}

fn ticks_or_none(ticks: Option<u64>) -> u64
    ensures { result ≡ ticks_or_none ticks }
{
    ticks.unwrap_or(0)
}

fn ticks_behind(rest: Option<&[u8]>) -> u64
    ensures { result ≡ ticks_behind (option_copied rest.entry) }
{
    match rest {
        None => 0,
        Some(words) => ticks_or_none(number(words)),
    }
}

/// The ticks of a line, from its first word and what stands behind it.
fn ticks_of_words(keyword: Option<Keyword>, rest: Option<&[u8]>) -> u64
    ensures { result ≡ ticks_of_words keyword (option_copied rest.entry) }
{
    match keyword {
        Some(Keyword::Tick | Keyword::Run) => ticks_behind(rest),
        _ => 0,
    }
}

impl LineCounts {
    /// The counts of the lines of these bytes.
    fn of(bytes: &[u8]) -> LineCounts
        ensures lines { result.lines ≡ length (lines_in bytes.now) }
        ensures members { result.members ≡ member_line_count (lines_in bytes.now) }
        ensures ticks { result.ticks ≡ ticks_in (lines_in bytes.now) }
    {
        let mut lines = 0usize;
        let mut members = 0usize;
        let mut ticks = 0u64;
        let mut rest = bytes;
        while let Some((line, behind)) = cut_line(rest) {
            let (word, said) = cut_word(line);
            let keyword = keyword_of(word);
            lines += 1;
            members += usize::from(is_member_word(keyword));
            ticks = ticks.saturating_add(ticks_of_words(keyword, said));
            rest = behind;
        }
        LineCounts {
            lines,
            members,
            ticks,
        }
    }
}

/// The first limit that the lines of these bytes pass, where `waited` ticks of 100 ms come beside those of the lines.
pub(crate) fn limit_of_lines(bytes: &[u8], waited: u64) -> Option<Limit>
    ensures { result ≡ limit_of_lines waited (lines_in bytes.now) }
{
    let counts = LineCounts::of(bytes);
    if counts.lines > MOST_LINES {
        Some(Limit::Lines)
    } else if counts.members > MOST_MEMBERS {
        Some(Limit::Members)
    } else if counts.ticks.saturating_add(waited) > MOST_TICKS {
        Some(Limit::Ticks)
    } else {
        None
    }
}

/// The first limit that the bytes pass, in the order of `Limit`, whether or not they are a script. `waited` is how many ticks
/// of 100 ms come beside those of their lines: the limit of ticks is one of both together.
pub fn limit_passed(bytes: &[u8], waited: u64) -> Option<Limit>
    ensures { result ≡ limit_of waited bytes.now }
{
    ScriptLines::of(bytes).limit_passed(waited)
}
