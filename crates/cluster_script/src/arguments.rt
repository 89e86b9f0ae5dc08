//! The words behind a line's first word.
ghost use Rattle.std.specs.Prelude.{◌≡◌, ◌≤◌, length, IfOk};
ghost use Rattle.std.specs.Option.{option_copied};
ghost use Rattle.indexmap.specs.IndexMap.{keys};
ghost use Rattle.script_words.specs.Faults.{both};
ghost use Rattle.script_grammar.specs.Arguments.{number_in, switch_in, slowed_call_in, commit_size_in, delay_in, member_in, end_in, missing_word, missing_behind, line_end, last_word, one_word, word_behind, words_behind, same_end, two_ends, commit_in, stream_in, slow_in, plain_line, line_of_words};
ghost use Rattle.pat_base.specs.declared.member_id.TheConstants.{MOST_MEMBERS};

use crate::ctl_line::ctl_line;
use crate::members::{Members, member_spelled};
use crate::rest_line::rest_line;
use pat_base::{MemberId, Name};
use script_model::{Command, CommitSize, Delay, End, Keyword, Line, SlowedCall};
use script_words::{Fault, both, cut_word, number};
use std::alloc::{AllocError, Global};

/// A number.
pub fn number_in(word: &[u8]) -> Result<u64, Fault>
    ensures { result ≡ number_in word.now }
{
    match number(word) {
        None => Err(Fault::BadNumber),
        Some(n) => Ok(n),
    }
}

fn switch_in(word: &[u8]) -> Result<bool, Fault>
    ensures { result ≡ switch_in word.now }
{
    if word == b"on".as_slice() {
        Ok(true)
    } else if word == b"off".as_slice() {
        Ok(false)
    } else {
        Err(Fault::BadOption)
    }
}

fn slowed_call_in(word: &[u8]) -> Result<SlowedCall, Fault>
    ensures { result ≡ slowed_call_in word.now }
{
    if word == b"stop".as_slice() {
        Ok(SlowedCall::Stop)
    } else if word == b"start".as_slice() {
        Ok(SlowedCall::Start)
    } else {
        Err(Fault::BadOption)
    }
}

fn commit_size_in(word: &[u8]) -> Result<CommitSize, Fault>
    ensures { result ≡ commit_size_in word.now }
{
    let n = number_in(word)?;
    match CommitSize::new(n) {
        None => Err(Fault::BadNumber),
        Some(size) => Ok(size),
    }
}

fn delay_in(word: &[u8]) -> Result<Delay, Fault>
    ensures { result ≡ delay_in word.now }
{
    let n = number_in(word)?;
    match Delay::new(n) {
        None => Err(Fault::BadNumber),
        Some(delay) => Ok(delay),
    }
}

/// The member of a name.
pub fn member_in(members: &Members, word: &[u8]) -> Result<MemberId, Fault>
    requires { length (keys members.now) ≤ MOST_MEMBERS }
    ensures { result ≡ member_in (keys members.now) word.now }
{
    if let Some(member) = member_spelled(members, word) {
        return Ok(member);
    }
    match Name::read(word) {
        None => Err(Fault::BadName),
        Some(_) => Err(Fault::UnknownName),
    }
}

fn end_in(members: &Members, word: &[u8]) -> Result<End, Fault>
    requires { length (keys members.now) ≤ MOST_MEMBERS }
    ensures { result ≡ end_in (keys members.now) word.now }
{
    if word == b"store".as_slice() {
        return Ok(End::Store);
    }
    match member_in(members, word) {
        Ok(member) => Ok(End::Member(member)),
        Err(fault) => Err(fault),
    }
}

/// The fault of a line of the body whose words end too early.
pub fn missing_word(members: &Members) -> Fault
    ensures { result ≡ missing_word (keys members.now) }
{
    if members.is_empty() {
        Fault::NoMember
    } else {
        Fault::WordCount
    }
}

/// The fault of a line whose words end behind one that says so.
pub fn missing_behind<A: Drop>(members: &Members, before: Result<A, Fault>) -> Fault
    ensures { result ≡ missing_behind (keys members.now) before }
{
    match before {
        Ok(_) => missing_word(members),
        Err(fault) => fault,
    }
}

/// A line of the body ends where its words end.
pub fn line_end(members: &Members, rest: Option<&[u8]>) -> Result<(), Fault>
    ensures { result ≡ line_end (keys members.now) (option_copied rest.entry) }
{
    if members.is_empty() {
        return Err(Fault::NoMember);
    }
    match rest {
        None => Ok(()),
        Some(_) => Err(Fault::WordCount),
    }
}

fn one_number(members: &Members, rest: Option<&[u8]>) -> Result<u64, Fault>
    ensures { result ≡ one_word (keys members.now) number_in (option_copied rest.entry) }
{
    let Some(words) = rest else {
        return Err(missing_word(members));
    };
    let (word, rest) = cut_word(words);
    let n = number_in(word)?;
    line_end(members, rest)?;
    Ok(n)
}

fn one_member(members: &Members, rest: Option<&[u8]>) -> Result<MemberId, Fault>
    requires { length (keys members.now) ≤ MOST_MEMBERS }
    ensures { result ≡ one_word (keys members.now) (member_in (keys members.now)) (option_copied rest.entry) }
{
    let Some(words) = rest else {
        return Err(missing_word(members));
    };
    let (word, rest) = cut_word(words);
    let member = member_in(members, word)?;
    line_end(members, rest)?;
    Ok(member)
}

fn one_switch(members: &Members, rest: Option<&[u8]>) -> Result<bool, Fault>
    ensures { result ≡ one_word (keys members.now) switch_in (option_copied rest.entry) }
{
    let Some(words) = rest else {
        return Err(missing_word(members));
    };
    let (word, rest) = cut_word(words);
    let on = switch_in(word)?;
    line_end(members, rest)?;
    Ok(on)
}

fn same_end(first: End, second: End) -> bool
    ensures { result ≡ same_end first second }
{
    match (first, second) {
        (End::Store, End::Store) => true,
        (End::Member(a), End::Member(b)) => a.number == b.number,
        _ => false,
    }
}

/// Two things that are both wanted, behind which the line ends.
fn last_both<A: Drop, B: Drop>(
    members: &Members,
    first: Result<A, Fault>,
    second: Result<B, Fault>,
    rest: Option<&[u8]>,
) -> Result<(A, B), Fault>
    ensures { result ≡ last_word (keys members.now) (both first second) (option_copied rest.entry) }
{
    let pair = both(first, second)?;
    line_end(members, rest)?;
    Ok(pair)
}

fn end_behind(
    members: &Members,
    before: Result<End, Fault>,
    rest: Option<&[u8]>,
) -> Result<(End, End), Fault>
    requires { length (keys members.now) ≤ MOST_MEMBERS }
    ensures { result ≡ word_behind (keys members.now) before (end_in (keys members.now)) (option_copied rest.entry) }
{
    let Some(words) = rest else {
        return Err(missing_behind(members, before));
    };
    let (word, rest) = cut_word(words);
    last_both(members, before, end_in(members, word), rest)
}

fn size_behind(
    members: &Members,
    before: Result<MemberId, Fault>,
    rest: Option<&[u8]>,
) -> Result<(MemberId, CommitSize), Fault>
    ensures { result ≡ word_behind (keys members.now) before commit_size_in (option_copied rest.entry) }
{
    let Some(words) = rest else {
        return Err(missing_behind(members, before));
    };
    let (word, rest) = cut_word(words);
    last_both(members, before, commit_size_in(word), rest)
}

fn number_behind(
    members: &Members,
    before: Result<MemberId, Fault>,
    rest: Option<&[u8]>,
) -> Result<(MemberId, u64), Fault>
    ensures { result ≡ word_behind (keys members.now) before number_in (option_copied rest.entry) }
{
    let Some(words) = rest else {
        return Err(missing_behind(members, before));
    };
    let (word, rest) = cut_word(words);
    last_both(members, before, number_in(word), rest)
}

fn delay_behind(
    members: &Members,
    before: Result<(MemberId, SlowedCall), Fault>,
    rest: Option<&[u8]>,
) -> Result<((MemberId, SlowedCall), Delay), Fault>
    ensures { result ≡ word_behind (keys members.now) before delay_in (option_copied rest.entry) }
{
    let Some(words) = rest else {
        return Err(missing_behind(members, before));
    };
    let (word, rest) = cut_word(words);
    last_both(members, before, delay_in(word), rest)
}

fn slowed_call_behind(
    members: &Members,
    before: Result<MemberId, Fault>,
    rest: Option<&[u8]>,
) -> Result<((MemberId, SlowedCall), Delay), Fault>
    ensures { result ≡ words_behind (keys members.now) before slowed_call_in delay_in (option_copied rest.entry) }
{
    let Some(words) = rest else {
        return Err(missing_behind(members, before));
    };
    let (word, rest) = cut_word(words);
    delay_behind(members, both(before, slowed_call_in(word)), rest)
}

fn two_ends(members: &Members, rest: Option<&[u8]>) -> Result<(End, End), Fault>
    requires { length (keys members.now) ≤ MOST_MEMBERS }
    ensures { result ≡ two_ends (keys members.now) (option_copied rest.entry) }
{
    let Some(words) = rest else {
        return Err(missing_word(members));
    };
    let (word, rest) = cut_word(words);
    let (first, second) = end_behind(members, end_in(members, word), rest)?;
    if same_end(first, second) {
        Err(Fault::SameEnds)
    } else {
        Ok((first, second))
    }
}

fn commit_in(members: &Members, rest: Option<&[u8]>) -> Result<Command, Fault>
    requires { length (keys members.now) ≤ MOST_MEMBERS }
    ensures { result ≡ commit_in (keys members.now) (option_copied rest.entry) }
{
    let Some(words) = rest else {
        return Err(missing_word(members));
    };
    let (word, rest) = cut_word(words);
    let (member, size) = size_behind(members, member_in(members, word), rest)?;
    Ok(Command::Commit(member, size))
}

fn stream_in(members: &Members, rest: Option<&[u8]>) -> Result<Command, Fault>
    requires { length (keys members.now) ≤ MOST_MEMBERS }
    ensures { result ≡ stream_in (keys members.now) (option_copied rest.entry) }
{
    let Some(words) = rest else {
        return Err(missing_word(members));
    };
    let (word, rest) = cut_word(words);
    let (member, n) = number_behind(members, member_in(members, word), rest)?;
    Ok(Command::Stream(member, n))
}

fn slow_in(members: &Members, rest: Option<&[u8]>) -> Result<Command, Fault>
    requires { length (keys members.now) ≤ MOST_MEMBERS }
    ensures { result ≡ slow_in (keys members.now) (option_copied rest.entry) }
{
    let Some(words) = rest else {
        return Err(missing_word(members));
    };
    let (word, rest) = cut_word(words);
    let ((member, slowed), delay) = slowed_call_behind(members, member_in(members, word), rest)?;
    Ok(Command::Slow(member, slowed, delay))
}

/// The line of the body with this first word, other than a request's and patronictl's, and these words behind it.
fn plain_line(members: &Members, keyword: Keyword, rest: Option<&[u8]>) -> Result<Line, Fault>
    requires { length (keys members.now) ≤ MOST_MEMBERS }
    ensures { result ≡ plain_line (keys members.now) keyword (option_copied rest.entry) }
{
    let command = match keyword {
        Keyword::Run => return Ok(Line::Run(one_number(members, rest)?)),
        Keyword::Tick => return Ok(Line::Tick(one_number(members, rest)?)),
        Keyword::Deliver => Command::Deliver(one_number(members, rest)?),
        Keyword::Lose => Command::Lose(one_number(members, rest)?),
        Keyword::Turn => Command::Turn(one_member(members, rest)?),
        Keyword::Hold => Command::Suspend(one_member(members, rest)?),
        Keyword::Resume => Command::Resume(one_member(members, rest)?),
        Keyword::Kill => Command::Kill(one_member(members, rest)?),
        Keyword::Restart => Command::StartAgent(one_member(members, rest)?),
        Keyword::Promote => Command::Promote(one_member(members, rest)?),
        Keyword::Crash => Command::Crash(one_member(members, rest)?),
        Keyword::Freeze => Command::Freeze(one_member(members, rest)?),
        Keyword::Thaw => Command::Thaw(one_member(members, rest)?),
        Keyword::Commit => commit_in(members, rest)?,
        Keyword::Stream => stream_in(members, rest)?,
        Keyword::Slow => slow_in(members, rest)?,
        Keyword::Cut => {
            let (first, second) = two_ends(members, rest)?;
            Command::Cut(first, second)
        }
        Keyword::Join => {
            let (first, second) = two_ends(members, rest)?;
            Command::Join(first, second)
        }
        Keyword::Trace => Command::Trace(one_switch(members, rest)?),
        _ => return Err(Fault::BadWord),
    };
    Ok(Line::Command(command))
}

/// The line of the body with this first word, and these words behind it. It fails only for want of memory.
pub fn line_of_words(
    alloc: Global,
    members: &Members,
    keyword: Keyword,
    rest: Option<&[u8]>,
) -> Result<Result<Line, Fault>, AllocError>
    requires { length (keys members.now) ≤ MOST_MEMBERS }
    ensures { IfOk result (λ outcome. outcome ≡ line_of_words (keys members.now) keyword (option_copied rest.entry)) }
{
    match keyword {
        Keyword::Rest => rest_line(alloc, members, rest),
        Keyword::Ctl => ctl_line(alloc, members, rest),
        _ => Ok(plain_line(members, keyword, rest)),
    }
}
