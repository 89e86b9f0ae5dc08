//! The standbys that are published, and whom commits wait for.
ghost use Rattle.std.specs.Prelude.{◌≡◌};
ghost use Rattle.quorum_commit.specs.Quorums.{adds_counted, may_publish, overlap};

use pat_base::MemberSet;

/// The standbys in the sync key, and how many of them at most lack an acknowledged commit.
#[derive(Clone, Copy, Debug, PartialEq, Eq)]
pub struct Quorum {
    pub standbys: MemberSet,
    pub number: u8,
}

/// Whom commits wait for: so many members of a set. Who waits for nobody, or for any one, needs 0 members of the empty
/// set.
#[derive(Clone, Copy, Debug, PartialEq, Eq)]
pub struct Need {
    pub number: u8,
    pub of: MemberSet,
}

/// Whether a key's standbys and the need of its leader overlap: together they have fewer members than both numbers and
/// one more. Then whoever wins a race, with so many standbys as the key's number beside itself, has heard of a member
/// that confirmed. It takes no memory.
pub fn overlap(key: Quorum, need: Need) -> bool
    ensures { result ≡ overlap key need }
{
    let members = key.standbys.union(need.of).len();
    members < u32::from(need.number) + u32::from(key.number) + 1
}

/// Whether a leader with this need may publish the new standbys in place of the old: they overlap the need, and either
/// the members that they add are counted among those that may lack a commit, or as many as the need wants have
/// confirmed what was acknowledged. It takes no memory.
pub fn may_publish(old: Quorum, new: Quorum, need: Need, confirmed: bool) -> bool
    ensures { result ≡ may_publish old new need confirmed }
{
    overlap(new, need) && (adds_counted(old, new) || confirmed)
}

/// Whether the members that the new standbys add, and those that might lack a commit before, are within the new number.
fn adds_counted(old: Quorum, new: Quorum) -> bool
    ensures { result ≡ adds_counted old new }
{
    let added = new.standbys.difference(old.standbys).len();
    added + u32::from(old.number) <= u32::from(new.number)
}

/// Whether a leader may come to have this need, where the sync key has these standbys: both overlap. It takes no
/// memory.
pub fn may_require(key: Quorum, need: Need) -> bool
    ensures { result ≡ overlap key need }
{
    overlap(key, need)
}
