//! Words of tables as values, and values as words of tables. Members go by the letters from a on.
use crate::stop::{Stop, known};
use pat_base::{Lsn, MemberId, MemberSet, Name, Ticks};
use std::alloc::{AllocError, Global};

pub fn number(word: &str) -> Result<u64, Stop> {
    known(word.parse().ok())
}

pub fn ticks(word: &str) -> Result<Ticks, Stop> {
    Ok(Ticks(number(word)?))
}

pub fn position(word: &str) -> Result<Lsn, Stop> {
    known(Lsn::read(word.as_bytes()).ok())
}

pub fn name(word: &str) -> Result<Name, Stop> {
    known(Name::read(word.as_bytes()))
}

/// A moment; none by the word `none`.
pub fn ticks_or_none(word: &str) -> Result<Option<Ticks>, Stop> {
    if word == "none" {
        return Ok(None);
    }
    Ok(Some(ticks(word)?))
}

/// A position; none by the word `none`.
pub fn position_or_none(word: &str) -> Result<Option<Lsn>, Stop> {
    if word == "none" {
        return Ok(None);
    }
    Ok(Some(position(word)?))
}

pub fn member(word: &str) -> Result<MemberId, Stop> {
    match word.as_bytes() {
        [letter] => known(MemberId::new(letter.wrapping_sub(b'a'))),
        _ => Err(Stop::Unknown),
    }
}

/// A set of members, as `b,c`; `nobody` is the empty one.
pub fn members(word: &str) -> Result<MemberSet, Stop> {
    let mut set = MemberSet::empty();
    if word == "nobody" {
        return Ok(set);
    }
    for part in word.split(',') {
        set = set.with(member(part)?);
    }
    Ok(set)
}

/// The first word, and the rest.
pub fn first_word(text: &str) -> (&str, &str) {
    match text.split_once(' ') {
        Some((word, rest)) => (word, rest),
        None => (text, ""),
    }
}

pub fn letter(member: MemberId) -> char {
    char::from(b'a'.saturating_add(member.number))
}

/// A set of members in the words of `members`.
pub fn letters(alloc: Global, set: MemberSet) -> Result<String, AllocError> {
    if set.is_empty() {
        return String::from_str(alloc, "nobody");
    }
    let mut text = String::new(alloc);
    for number in 0..16 {
        match MemberId::new(number) {
            Some(member) if set.contains(member) => write_letter(&mut text, member)?,
            _ => {}
        }
    }
    Ok(text)
}

/// Appends a member's letter, behind a comma where it isn't the first.
fn write_letter(text: &mut String, member: MemberId) -> Result<(), AllocError> {
    if !text.is_empty() {
        text.push_str(",")?;
    }
    text.push(letter(member))
}

/// The letter of a member, or `none`.
pub fn letter_or_none(alloc: Global, member: Option<MemberId>) -> Result<String, AllocError> {
    match member {
        Some(member) => letters(alloc, MemberSet::empty().with(member)),
        None => String::from_str(alloc, "none"),
    }
}

/// A moment, or `none`.
pub fn moment(alloc: Global, moment: Option<Ticks>) -> Result<String, AllocError> {
    match moment {
        Some(Ticks(tick)) => format!(in alloc; "{tick}"),
        None => String::from_str(alloc, "none"),
    }
}

/// A number, or `none`.
pub fn number_or_none(alloc: Global, number: Option<u64>) -> Result<String, AllocError> {
    match number {
        Some(number) => format!(in alloc; "{number}"),
        None => String::from_str(alloc, "none"),
    }
}

pub fn yes_or_no(alloc: Global, holds: bool) -> Result<String, AllocError> {
    String::from_str(alloc, if holds { "yes" } else { "no" })
}
