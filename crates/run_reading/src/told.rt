//! What a line with a moment tells.
ghost use Rattle.std.specs.Prelude.{◌≡◌, Some};
ghost use Rattle.std.specs.Option.{option_copied};
ghost use Rattle.script_words.specs.Words.{cut_word};
ghost use Rattle.run_reading.specs.Told.{behind_kind, behind_number, behind_of, committed_on, name_before, of_named, of_nobody, told_by_name, told_by_words, told_of_commit, told_of_key, told_of_numbered, told_of_request, told_of_store, told_unnamed};

use crate::forms::{behind, named_of};
use crate::happening::Happening;
use pat_base::Name;
use script_words::{cut_word, number};

/// What a line tells: at which moment, in ticks of 100 ms, of whom, where it begins with a name or speaks of whose request or key it is,
/// and what.
#[derive(Clone, Copy)]
pub struct Told {
    pub tick: u64,
    pub of: Option<Name>,
    pub happening: Happening,
}

impl Told {
    ghost use Rattle.std.specs.Prelude.{◌≡◌};
    ghost use Rattle.run_reading.specs.Told.{told_of};

    /// What a line with a moment tells. `None` where it isn't one of a printed run that tells something that is drawn.
    pub fn read(line: &[u8]) -> Option<Told>
        ensures { result ≡ told_of line.now }
    {
        let (moment, words) = cut_word(line);
        let tick = number(moment)?;
        told_by_words(tick, words?)
    }
}

fn told_by_words(tick: u64, words: &[u8]) -> Option<Told>
    ensures { result ≡ told_by_words tick words.now }
{
    match told_by_name(tick, words) {
        Some(told) => Some(told),
        None => told_unnamed(tick, words),
    }
}

fn told_by_name(tick: u64, words: &[u8]) -> Option<Told>
    ensures { result ≡ told_by_name tick (cut_word words.now) }
{
    let (first, rest) = cut_word(words);
    let happening = named_of(rest?)?;
    Some(of_named(tick, happening, Name::read(first)?))
}

/// What words tell that begin with no name.
fn told_unnamed(tick: u64, words: &[u8]) -> Option<Told>
    ensures { result ≡ told_unnamed tick words.now }
{
    match told_of_numbered(tick, words) {
        Some(told) => Some(told),
        None => told_of_store(tick, behind(b"the ", words)?),
    }
}

/// What words tell of a commit, which they begin with.
fn told_of_numbered(tick: u64, words: &[u8]) -> Option<Told>
    ensures { result ≡ told_of_numbered tick words.now }
{
    let rest = behind(b"commit ", words)?;
    told_of_commit(tick, behind_number(rest)?)
}

fn told_of_commit(tick: u64, words: &[u8]) -> Option<Told>
    ensures { result ≡ told_of_commit tick words.now }
{
    if words == b"is acknowledged".as_slice() {
        return Some(of_nobody(tick, Happening::IsAcknowledged));
    }
    let _server = committed_on(words)?;
    Some(of_nobody(tick, Happening::Commits))
}

/// The server of a commit, behind its number.
fn committed_on(words: &[u8]) -> Option<Name>
    ensures { result ≡ committed_on words.now }
{
    let size = behind(b"of ", words)?;
    let server = behind(b"bytes on ", behind_number(size)?)?;
    Name::read(server)
}

/// What stands behind a number and a blank.
fn behind_number(bytes: &[u8]) -> Option<&[u8]>
    ensures { option_copied result ≡ behind_number bytes.now }
{
    let (digits, rest) = cut_word(bytes);
    let _count = number(digits)?;
    rest
}

/// What words tell of the key store.
fn told_of_store(tick: u64, words: &[u8]) -> Option<Told>
    ensures { result ≡ told_of_store tick words.now }
{
    match told_of_key(tick, words) {
        Some(told) => Some(told),
        None => told_of_request(tick, words),
    }
}

fn told_of_key(tick: u64, words: &[u8]) -> Option<Told>
    ensures { result ≡ told_of_key tick words.now }
{
    let rest = behind(b"leader key of ", words)?;
    let holder = name_before(b"expires", rest)?;
    Some(of_named(tick, Happening::KeyExpires, holder))
}

fn told_of_request(tick: u64, words: &[u8]) -> Option<Told>
    ensures { result ≡ told_of_request tick words.now }
{
    let rest = behind_kind(words)?;
    let by = name_before(b"is refused, ", rest)?;
    Some(of_named(tick, Happening::IsRefused, by))
}

/// What stands behind the words for a kind of request, of which there are one or two, and `of`.
fn behind_kind(words: &[u8]) -> Option<&[u8]>
    ensures { option_copied result ≡ behind_kind words.now }
{
    match behind_of(words) {
        Some(rest) => Some(rest),
        None => behind_of(cut_word(words).1?),
    }
}

/// What stands behind a word and `of`.
fn behind_of(words: &[u8]) -> Option<&[u8]>
    ensures { option_copied result ≡ behind_of words.now }
{
    behind(b"of ", cut_word(words).1?)
}

/// The name that ends at the first blank, where these words follow.
fn name_before(words: &[u8], bytes: &[u8]) -> Option<Name>
    ensures { result ≡ name_before words.now (cut_word bytes.now) }
{
    let (name, rest) = cut_word(bytes);
    let _ = behind(words, rest?)?;
    Name::read(name)
}

fn of_nobody(tick: u64, happening: Happening) -> Told
    ensures { result ≡ of_nobody tick happening }
{
    Told {
        tick,
        of: None,
        happening,
    }
}

fn of_named(tick: u64, happening: Happening, name: Name) -> Told
    ensures { Some result ≡ of_named tick happening (Some name) }
{
    Told {
        tick,
        of: Some(name),
        happening,
    }
}
