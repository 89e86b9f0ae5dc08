//! Sets of members, put together and compared.
ghost use Rattle.std.specs.Prelude.{◌≡◌};
ghost use Rattle.sync_state.specs.Sets.{nobody, both, either, is_within, are_same};

use pat_base::MemberSet;

/// The set of nobody.
pub(crate) fn nobody() -> MemberSet
    ensures { result ≡ nobody }
{
    MemberSet::empty()
}

/// The members of both sets.
pub(crate) fn both(one: MemberSet, other: MemberSet) -> MemberSet
    ensures { result ≡ both one other }
{
    one.intersection(other)
}

/// The members of either set.
pub(crate) fn either(one: MemberSet, other: MemberSet) -> MemberSet
    ensures { result ≡ either one other }
{
    one.union(other)
}

/// Whether each member of the first set is in the other.
pub(crate) fn is_within(one: MemberSet, other: MemberSet) -> bool
    ensures { result ≡ is_within one other }
{
    one.is_subset(other)
}

/// Whether both sets have the same members.
pub(crate) fn are_same(one: MemberSet, other: MemberSet) -> bool
    ensures { result ≡ are_same one other }
{
    one == other
}
