//! Texts, line by line.
use std::fmt;

/// The first line in which two texts differ. A text that has fewer lines has none there.
#[derive(Drop)]
pub struct Difference<'a> {
    line: u64,
    told: Option<&'a str>,
    wanted: Option<&'a str>,
}

/// A line that stands for any line, where it is wanted.
const ANY: &str = "*";

/// The first line in which what is told differs, behind as many lines as are skipped, from what is wanted, if there is one.
pub fn first_difference<'a>(
    told: &'a str,
    skipped: usize,
    wanted: &'a str,
) -> Option<Difference<'a>> {
    let mut line = 1u64;
    let mut lines = wanted.split('\n');
    for told in told.split('\n').skip(skipped) {
        let wanted = lines.next();
        if wanted != Some(told) && wanted != Some(ANY) {
            return Some(Difference {
                line,
                told: Some(told),
                wanted,
            });
        }
        line = line.saturating_add(1);
    }
    let missing = lines.next()?;
    Some(Difference {
        line,
        told: None,
        wanted: Some(missing),
    })
}

/// How many lines one text has more than another.
pub fn lines_more(text: &str, other: &str) -> usize {
    text.split('\n')
        .count()
        .saturating_sub(other.split('\n').count())
}

impl fmt::Display for Difference<'_> {
    fn fmt<W: fmt::Write>(&self, f: &mut fmt::Formatter<W>) -> fmt::Result {
        let Difference { line, told, wanted } = self;
        let told = told.unwrap_or("(no line)");
        let wanted = wanted.unwrap_or("(no line)");
        write!(f, "line {line} is `{told}`, and is to be `{wanted}`")
    }
}
