//! Plain types as text: positions, sizes, names, members and their sets.
use crate::stop::{Stop, known};
use crate::words::{
    first_word, letter_or_none, letters, member, members, number, number_or_none, yes_or_no,
};
use pat_base::{Lsn, MemberId, MemberSet, Name, ServerId, Size};
use pat_cases::{Case, CaseTable};
use std::alloc::Global;

/// What a value comes to.
pub fn told(alloc: Global, asked: &str) -> Result<String, Stop> {
    let (word, rest) = first_word(asked);
    match word {
        "position" => {
            let read = Lsn::read(rest.as_bytes()).ok();
            Ok(number_or_none(alloc, read.map(|lsn| lsn.position))?)
        }
        "print" => Ok(known(Lsn::new(number(rest)?))?.print(alloc)?),
        "size" => Ok(number_or_none(alloc, Size::read(rest.as_bytes()).ok())?),
        "name" => Ok(yes_or_no(alloc, Name::read(rest.as_bytes()).is_some())?),
        "member" => {
            let member = known(rest.parse().ok())?;
            Ok(letter_or_none(alloc, MemberId::new(member))?)
        }
        "server" => {
            let server = ServerId::new(known(rest.parse().ok())?);
            Ok(letter_or_none(alloc, server.and_then(|server| server.member()))?)
        }
        "cases" => answered_case(alloc, rest),
        "server-of" => Ok(letter_or_none(alloc, ServerId::of(member(rest)?).member())?),
        _ => told_of_sets(alloc, word, rest),
    }
}

/// The answer of a table of two cases, each as `1,1,200`, to facts.
fn answered_case(alloc: Global, rest: &str) -> Result<String, Stop> {
    let (first, rest) = first_word(rest);
    let (second, facts) = first_word(rest);
    let rows = [case(first)?, case(second)?];
    let answer = CaseTable { rows }.first(known(facts.parse().ok())?);
    Ok(number_or_none(alloc, answer.map(u64::from))?)
}

fn case(word: &str) -> Result<Case, Stop> {
    let mut parts = word.split(',');
    Ok(Case {
        mask: known(known(parts.next())?.parse().ok())?,
        wanted: known(known(parts.next())?.parse().ok())?,
        answer: known(known(parts.next())?.parse().ok())?,
    })
}

/// What sets come to.
fn told_of_sets(alloc: Global, asked: &str, rest: &str) -> Result<String, Stop> {
    let (set, other) = first_word(rest);
    let set = members(set)?;
    match asked {
        "first" => Ok(letter_or_none(alloc, set.first())?),
        "len" => Ok(number_or_none(alloc, Some(u64::from(set.len())))?),
        "empty" => Ok(yes_or_no(alloc, set.is_empty())?),
        "contains" => Ok(yes_or_no(alloc, set.contains(member(other)?))?),
        "is-subset" => Ok(yes_or_no(alloc, set.is_subset(members(other)?))?),
        _ => Ok(letters(alloc, combined(asked, set, other)?)?),
    }
}

/// The set that a set and another word come to.
fn combined(asked: &str, set: MemberSet, other: &str) -> Result<MemberSet, Stop> {
    match asked {
        "union" => Ok(set.union(members(other)?)),
        "intersection" => Ok(set.intersection(members(other)?)),
        "without" => Ok(set.without(member(other)?)),
        _ => Err(Stop::Unknown),
    }
}
