//! The request of a leader to all other members, and who acknowledged it.
ghost use Rattle.std.specs.Prelude.{◌≡◌};
ghost use Rattle.failsafe.specs.Asks.{with_member, is_within, earlier, earliest_or, is_awaited, counts, asked, with_acknowledgement, heard, moment_of_all};

use pat_base::{MemberId, MemberSet, Ticks};

/// A request to these members, and which of them have acknowledged it so far. Moments are in ticks of 100 ms.
#[derive(Clone, Copy, PartialEq, Eq)]
pub struct Ask {
    /// Whom it asks.
    pub members: MemberSet,
    /// When it was made.
    pub made: Ticks,
    /// Who of them acknowledged it.
    pub acknowledged: MemberSet,
    /// The earliest moment of an acknowledgement, if there was one.
    pub earliest: Option<Ticks>,
}

impl Ask {
    /// A request to these members at this moment, which nobody has acknowledged.
    pub fn new(members: MemberSet, now: Ticks) -> Ask
        ensures { result ≡ asked members now }
    {
        Ask {
            members,
            made: now,
            acknowledged: MemberSet::empty(),
            earliest: None,
        }
    }

    /// A member's answer of this moment. Only an acknowledgement counts, of a member that was asked, and the first of that
    /// member alone.
    pub fn heard(&mut self, member: MemberId, accepted: bool, at: Ticks)
        ensures { self.new ≡ heard self.old member accepted at }
    {
        if self.counts(member, accepted) {
            self.acknowledge(member, at);
        }
    }

    /// The earliest moment of an acknowledgement, once each member that was asked has acknowledged; where nobody was asked the
    /// moment of the request. `None` exactly where one that was asked hasn't acknowledged.
    pub fn all(&self) -> Option<Ticks>
        ensures { result ≡ moment_of_all self.now }
    {
        if is_within(self.members, self.acknowledged) {
            Some(earliest_or(self.made, self.earliest))
        } else {
            None
        }
    }

    fn counts(&self, member: MemberId, accepted: bool) -> bool
        ensures { result ≡ counts self.now member accepted }
    {
        accepted && self.is_awaited(member)
    }

    /// Whether a member was asked, and hasn't acknowledged yet.
    fn is_awaited(&self, member: MemberId) -> bool
        ensures { result ≡ is_awaited self.now member }
    {
        self.members.contains(member) && !self.acknowledged.contains(member)
    }

    fn acknowledge(&mut self, member: MemberId, at: Ticks)
        ensures { self.new ≡ with_acknowledgement self.old member at }
    {
        self.acknowledged = with_member(self.acknowledged, member);
        self.earliest = Some(earlier(self.earliest, at));
    }
}

/// The set and this member.
pub(crate) fn with_member(set: MemberSet, member: MemberId) -> MemberSet
    ensures { result ≡ with_member set member }
{
    set.with(member)
}

/// Whether each member of the first set is in the other.
fn is_within(one: MemberSet, other: MemberSet) -> bool
    ensures { result ≡ is_within one other }
{
    one.is_subset(other)
}

/// The earlier of two moments, of which the first may be absent.
fn earlier(before: Option<Ticks>, at: Ticks) -> Ticks
    ensures { result ≡ earlier before at }
{
    match before {
        Some(before) if before < at => before,
        _ => at,
    }
}

/// The earliest moment of an acknowledgement, or else that of the request.
fn earliest_or(made: Ticks, earliest: Option<Ticks>) -> Ticks
    ensures { result ≡ earliest_or made earliest }
{
    match earliest {
        None => made,
        Some(at) => at,
    }
}
