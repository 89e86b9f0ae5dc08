//! The lines of a script's head.
ghost use Rattle.std.specs.Prelude.{◌≡◌, ◌<◌, length, None, IfOk};
ghost use Rattle.std.specs.Option.{option_copied};
ghost use Rattle.indexmap.specs.IndexMap.{keys};
ghost use Rattle.script_grammar.specs.Members.{place_of};
ghost use Rattle.script_grammar.specs.Reading.{in_head, declared_in_head, named_member, name_in, new_member, next_member, base_in, head_end, base_end, base_missing, next_base, second_cluster, cluster_in, first_line};
ghost use Rattle.pat_base.specs.declared.member_id.TheConstants.{MOST_MEMBERS};

use crate::arguments::number_in;
use crate::first_words::keyword_of;
use crate::members::{Members, place_of};
use member_options::{MemberOptions, options_in};
use pat_base::{MOST_MEMBERS, Name};
use script_model::{Keyword, Line};
use script_words::{Fault, both, cut_word};

/// The greatest base of a script, in bytes.
const GREATEST_BASE: u64 = 1_099_511_627_776;

fn in_head(body: &[Line], fault: Fault) -> Fault
    ensures { result ≡ in_head body.now fault }
{
    if body.is_empty() {
        fault
    } else {
        Fault::HeadLate
    }
}

fn declared_in_head(
    name: Name,
    options: MemberOptions,
    body: &[Line],
) -> Result<(Name, MemberOptions), Fault>
    ensures { result ≡ declared_in_head (name, options) body.now }
{
    if body.is_empty() {
        Ok((name, options))
    } else {
        Err(Fault::HeadLate)
    }
}

fn named_member(
    members: &Members,
    body: &[Line],
    name: Name,
    options: MemberOptions,
) -> Result<(Name, MemberOptions), Fault>
    ensures value { result ≡ named_member (keys members.now) body.now (name, options) }
    ensures new { IfOk result (λ member. place_of (keys members.now) member.0 ≡ None) }
{
    if place_of(members, name).is_some() {
        return Err(Fault::Duplicate);
    }
    declared_in_head(name, options, body)
}

fn name_in(word: &[u8]) -> Result<Name, Fault>
    ensures { result ≡ name_in word.now }
{
    match Name::read(word) {
        None => Err(Fault::BadName),
        Some(name) => Ok(name),
    }
}

fn new_member(
    members: &Members,
    body: &[Line],
    rest: Option<&[u8]>,
) -> Result<(Name, MemberOptions), Fault>
    ensures value { result ≡ new_member (keys members.now) body.now (option_copied rest.entry) }
    ensures new { IfOk result (λ member. place_of (keys members.now) member.0 ≡ None) }
{
    let Some(words) = rest else {
        return Err(in_head(body, Fault::WordCount));
    };
    let (word, rest) = cut_word(words);
    let (name, options) = both(name_in(word), options_in(rest))?;
    named_member(members, body, name, options)
}

/// The name and the options of one more member, from the words of its line.
pub fn next_member(
    members: &Members,
    body: &[Line],
    rest: Option<&[u8]>,
) -> Result<(Name, MemberOptions), Fault>
    ensures value { result ≡ next_member (keys members.now) body.now (option_copied rest.entry) }
    ensures new { IfOk result (λ member. place_of (keys members.now) member.0 ≡ None) }
    ensures few { IfOk result (λ _. length (keys members.now) < MOST_MEMBERS) }
{
    if members.len() >= MOST_MEMBERS {
        return Err(Fault::BadWord);
    }
    new_member(members, body, rest)
}

fn base_in(word: &[u8]) -> Result<u64, Fault>
    ensures { result ≡ base_in word.now }
{
    let n = number_in(word)?;
    if n == 0 || n > GREATEST_BASE {
        Err(Fault::BadNumber)
    } else {
        Ok(n)
    }
}

/// A line of the head stands before the body, and ends where its words end.
fn head_end(body: &[Line], rest: Option<&[u8]>) -> Result<(), Fault>
    ensures { result ≡ head_end body.now (option_copied rest.entry) }
{
    if !body.is_empty() {
        return Err(Fault::HeadLate);
    }
    match rest {
        None => Ok(()),
        Some(_) => Err(Fault::WordCount),
    }
}

fn base_end(said: Option<u64>, body: &[Line], rest: Option<&[u8]>) -> Result<(), Fault>
    ensures { result ≡ base_end said body.now (option_copied rest.entry) }
{
    match said {
        Some(_) => Err(Fault::Duplicate),
        None => head_end(body, rest),
    }
}

fn base_missing(said: Option<u64>, body: &[Line]) -> Fault
    ensures { result ≡ base_missing said body.now }
{
    match said {
        Some(_) => Fault::Duplicate,
        None => in_head(body, Fault::WordCount),
    }
}

/// The base, from the words of its line, behind the base that is said already.
pub fn next_base(said: Option<u64>, body: &[Line], rest: Option<&[u8]>) -> Result<u64, Fault>
    ensures { result ≡ next_base said body.now (option_copied rest.entry) }
{
    let Some(words) = rest else {
        return Err(base_missing(said, body));
    };
    let (word, rest) = cut_word(words);
    let n = base_in(word)?;
    base_end(said, body, rest)?;
    Ok(n)
}

/// Which fault a second line `cluster` has.
pub fn second_cluster(rest: Option<&[u8]>) -> Fault
    ensures { result ≡ second_cluster (option_copied rest.entry) }
{
    let Some(words) = rest else {
        return Fault::Duplicate;
    };
    match Name::read(cut_word(words).0) {
        None => Fault::BadName,
        Some(_) => Fault::Duplicate,
    }
}

fn cluster_in(rest: Option<&[u8]>) -> Result<Name, Fault>
    ensures { result ≡ cluster_in (option_copied rest.entry) }
{
    let Some(words) = rest else {
        return Err(Fault::WordCount);
    };
    let (word, rest) = cut_word(words);
    let Some(name) = Name::read(word) else {
        return Err(Fault::BadName);
    };
    match rest {
        None => Ok(name),
        Some(_) => Err(Fault::WordCount),
    }
}

/// The name of the cluster, from the first line that counts.
pub fn first_line(line: &[u8]) -> Result<Name, Fault>
    ensures { result ≡ first_line line.now }
{
    let (word, rest) = cut_word(line);
    match keyword_of(word) {
        Some(Keyword::Cluster) => cluster_in(rest),
        _ => Err(Fault::NoCluster),
    }
}
