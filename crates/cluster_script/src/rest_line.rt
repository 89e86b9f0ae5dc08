//! The line of a request.
ghost use Rattle.std.specs.Prelude.{◌≡◌, ◌≤◌, length, IfOk};
ghost use Rattle.std.specs.Option.{option_copied};
ghost use Rattle.indexmap.specs.IndexMap.{keys};
ghost use Rattle.script_grammar.specs.Arguments.{method_in, target_in, target_behind, method_behind, asked_member, next_word, behind_word, bytes_or_none, request_behind, rest_line};
ghost use Rattle.pat_base.specs.declared.member_id.TheConstants.{MOST_MEMBERS};

use crate::arguments::{member_in, missing_behind, missing_word};
use crate::members::Members;
use pat_base::{MemberId, Shared};
use script_model::{Command, Line, RequestWords};
use script_words::{Fault, both, cut_word, is_token};
use std::alloc::{AllocError, Global};

/// A method: any token of HTTP.
fn method_in(word: &[u8]) -> Result<(), Fault>
    ensures { result ≡ method_in word.now }
{
    if is_token(word) {
        Ok(())
    } else {
        Err(Fault::BadOption)
    }
}

/// A target is any word, behind what the words before it say. An empty one is missing.
fn target_in(
    members: &Members,
    before: Result<(MemberId, ()), Fault>,
    target: &[u8],
) -> Result<(MemberId, ()), Fault>
    ensures { result ≡ target_in (keys members.now) before target.now }
{
    if target.is_empty() {
        Err(missing_behind(members, before))
    } else {
        before
    }
}

fn target_behind(
    members: &Members,
    before: Result<(MemberId, ()), Fault>,
    rest: Option<&[u8]>,
) -> Result<(MemberId, ()), Fault>
    ensures { result ≡ target_behind (keys members.now) before (option_copied rest.entry) }
{
    match rest {
        None => Err(missing_behind(members, before)),
        Some(words) => target_in(members, before, cut_word(words).0),
    }
}

fn method_behind(
    members: &Members,
    before: Result<MemberId, Fault>,
    rest: Option<&[u8]>,
) -> Result<(MemberId, ()), Fault>
    ensures { result ≡ method_behind (keys members.now) before (option_copied rest.entry) }
{
    let Some(words) = rest else {
        return Err(missing_behind(members, before));
    };
    let (method, rest) = cut_word(words);
    target_behind(members, both(before, method_in(method)), rest)
}

/// The member that a request is for, where its words are in form.
fn asked_member(members: &Members, rest: Option<&[u8]>) -> Result<(MemberId, ()), Fault>
    requires { length (keys members.now) ≤ MOST_MEMBERS }
    ensures { result ≡ asked_member (keys members.now) (option_copied rest.entry) }
{
    let Some(words) = rest else {
        return Err(missing_word(members));
    };
    let (word, rest) = cut_word(words);
    method_behind(members, member_in(members, word), rest)
}

/// The next word, or no bytes.
fn next_word(rest: Option<&[u8]>) -> &[u8]
    ensures { result.now ≡ next_word (option_copied rest.entry) }
{
    match rest {
        None => &[],
        Some(words) => cut_word(words).0,
    }
}

/// What stands behind the next word and its blank.
fn behind_word(rest: Option<&[u8]>) -> Option<&[u8]>
    ensures { option_copied result ≡ behind_word (option_copied rest.entry) }
{
    match rest {
        None => None,
        Some(words) => cut_word(words).1,
    }
}

/// All bytes, or none.
fn bytes_or_none(rest: Option<&[u8]>) -> &[u8]
    ensures { result.now ≡ bytes_or_none (option_copied rest.entry) }
{
    match rest {
        None => &[],
        Some(bytes) => bytes,
    }
}

/// A request, from what stands behind the member: its body is all that stands behind the target's blank. It fails only for
/// want of memory.
fn request_behind(alloc: Global, rest: Option<&[u8]>) -> Result<RequestWords, AllocError>
    ensures { IfOk result (λ request. request ≡ request_behind (option_copied rest.entry)) }
{
    let target_on = behind_word(rest);
    let body = bytes_or_none(behind_word(target_on));
    RequestWords::new(alloc, next_word(rest), next_word(target_on), body)
}

/// The line of a request. It fails only for want of memory.
pub fn rest_line(
    alloc: Global,
    members: &Members,
    rest: Option<&[u8]>,
) -> Result<Result<Line, Fault>, AllocError>
    requires { length (keys members.now) ≤ MOST_MEMBERS }
    ensures { IfOk result (λ outcome. outcome ≡ rest_line (keys members.now) (option_copied rest.entry)) }
{
    match asked_member(members, rest) {
        Err(fault) => Ok(Err(fault)),
        Ok((member, ())) => {
            let request = Shared::new(alloc, request_behind(alloc, behind_word(rest))?)?;
            Ok(Ok(Line::Command(Command::Rest(member, request))))
        }
    }
}
