//! Whom a leader lists in the failsafe key, and whom it asks of those that are listed.
ghost use Rattle.std.specs.Prelude.{◌≡◌};
ghost use Rattle.failsafe.specs.Listing.{without_member, is_present, with_present, present_in, is_listed, unless_listed, set_to_write};

use crate::asks::with_member;
use cluster_view::Snapshot;
use pat_base::{MOST_MEMBERS, MemberId, MemberSet};
use store_keys::Key;

/// All these members but this one.
pub fn without_member(set: MemberSet, member: MemberId) -> MemberSet
    ensures { result ≡ without_member set member }
{
    set.without(member)
}

/// Whom a leader is to write into the failsafe key with its next renewal, by what the key store told and whether failsafe mode is
/// on: the members that have a member key. `None` exactly where the mode is off, or the key lists just these. It takes no memory.
pub fn set_to_write(mode: bool, seen: &Snapshot) -> Option<MemberSet>
    ensures { result ≡ set_to_write mode seen.now }
{
    if mode {
        unless_listed(present_in(seen), seen.failsafe())
    } else {
        None
    }
}

fn unless_listed(members: MemberSet, listed: Option<MemberSet>) -> Option<MemberSet>
    ensures { result ≡ unless_listed members listed }
{
    if is_listed(members, listed) {
        None
    } else {
        Some(members)
    }
}

/// Whether the failsafe key lists just these members.
fn is_listed(members: MemberSet, listed: Option<MemberSet>) -> bool
    ensures { result ≡ is_listed members listed }
{
    match listed {
        None => false,
        Some(listed) => listed.bits == members.bits,
    }
}

/// The members that have a member key.
fn present_in(seen: &Snapshot) -> MemberSet
    ensures { result ≡ present_in seen.now }
{
    let mut members = MemberSet::empty();
    for number in 0..MOST_MEMBERS as u8 {
        members = with_present(seen, MemberId::new(number), members);
    }
    members
}

/// The set and this member, where it has a member key.
fn with_present(seen: &Snapshot, member: Option<MemberId>, set: MemberSet) -> MemberSet
    ensures { result ≡ with_present seen.now member set }
{
    match member {
        Some(member) if is_present(seen, member) => with_member(set, member),
        _ => set,
    }
}

fn is_present(seen: &Snapshot, member: MemberId) -> bool
    ensures { result ≡ is_present seen.now member }
{
    seen.entry(Key::Member(member)).is_some()
}
