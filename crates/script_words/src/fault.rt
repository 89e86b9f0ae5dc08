//! What is wrong with a line.
ghost use Rattle.std.specs.Prelude.{◌≡◌, ◌≤◌, length};
ghost use Rattle.script_words.specs.Faults.{text_of, rank_of, earlier, both};

use std::fmt;

/// What is wrong with a line. A line has its first fault in this order.
#[derive(Clone, Copy, Debug, PartialEq, Eq)]
pub enum Fault {
    /// The line isn't UTF-8.
    NotUtf8,
    /// The line is longer than 8,192 bytes.
    TooLong,
    /// The first line that counts isn't `cluster`, or no line counts.
    NoCluster,
    /// The first word is none of a script's, or it is `member` for the seventeenth time.
    BadWord,
    /// A word that has to be a name isn't one.
    BadName,
    /// A word that has to be a number isn't one, or is out of its range.
    BadNumber,
    /// A word that isn't one of those that may stand there.
    BadOption,
    /// A cluster, a configuration, a base, a member or an option of a member is declared twice.
    Duplicate,
    /// A name that no line declares as a member's.
    UnknownName,
    /// The body begins, or the script ends, without a member.
    NoMember,
    /// A line of the head stands behind the body's first.
    HeadLate,
    /// A word is missing, or one is too many.
    WordCount,
    /// What stands behind `config` is no configuration, or none that may be written.
    BadConfig,
    /// The two ends of a link are one.
    SameEnds,
}

/// What a fault is called, in at most 32 bytes.
pub fn fault_text(fault: Fault) -> &'static str
    ensures text { result.now ≡ text_of fault }
    ensures short { length result.now ≤ 32 }
{
    match fault {
        Fault::NotUtf8 => "not UTF-8",
        Fault::TooLong => "line too long",
        Fault::NoCluster => "no cluster line",
        Fault::BadWord => "unknown line",
        Fault::BadName => "bad name",
        Fault::BadNumber => "bad number",
        Fault::BadOption => "bad option",
        Fault::Duplicate => "declared twice",
        Fault::UnknownName => "unknown name",
        Fault::NoMember => "no member",
        Fault::HeadLate => "head line after body",
        Fault::WordCount => "wrong number of words",
        Fault::BadConfig => "bad configuration",
        Fault::SameEnds => "same ends",
    }
}

/// The place of a fault in their order.
fn rank_of(fault: Fault) -> u8
    ensures { result ≡ rank_of fault }
{
    match fault {
        Fault::NotUtf8 => 0,
        Fault::TooLong => 1,
        Fault::NoCluster => 2,
        Fault::BadWord => 3,
        Fault::BadName => 4,
        Fault::BadNumber => 5,
        Fault::BadOption => 6,
        Fault::Duplicate => 7,
        Fault::UnknownName => 8,
        Fault::NoMember => 9,
        Fault::HeadLate => 10,
        Fault::WordCount => 11,
        Fault::BadConfig => 12,
        Fault::SameEnds => 13,
    }
}

/// The fault that a line has of two.
fn earlier(first: Fault, second: Fault) -> Fault
    ensures { result ≡ earlier first second }
{
    if rank_of(first) <= rank_of(second) {
        first
    } else {
        second
    }
}

/// Two things that are both wanted, or the first of their faults.
pub fn both<A: Drop, B: Drop>(
    first: Result<A, Fault>,
    second: Result<B, Fault>,
) -> Result<(A, B), Fault>
    ensures { result ≡ both first second }
{
    match (first, second) {
        (Ok(first), Ok(second)) => Ok((first, second)),
        (Ok(_), Err(fault)) => Err(fault),
        (Err(fault), Ok(_)) => Err(fault),
        (Err(first), Err(second)) => Err(earlier(first, second)),
    }
}

impl fmt::Display for Fault {
    ghost use Rattle.std.specs.Prelude.{Some};
    ghost use Rattle.script_words.specs.Faults.{text_of};

    ghost output = { λ fault. Some (text_of fault) };

    fn fmt<W: fmt::Write>(&self, f: &mut fmt::Formatter<W>) -> fmt::Result {
        f.write_str(fault_text(*self))
    }
}
