//! The steps by which a leader changes who its synchronous standbys are, and what they turn on.

use pat_base::MemberSet;

/// The next step of a leader towards the synchronous standbys that are wanted. One step is made at a time, so that each
/// standby that the sync key names is one that commits wait for.
#[derive(Clone, Copy, PartialEq, Eq)]
pub enum Plan {
    /// Nothing is to be changed.
    Keep,
    /// The sync key is to name this leader, and no standby.
    Mark,
    /// The sync key is to name these standbys only, all of which it names.
    Withdraw(MemberSet),
    /// Commits are to wait for each of these.
    AddRequired(MemberSet),
    /// The sync key is to name these standbys, each of which has confirmed what was noted.
    Publish(MemberSet),
    /// Commits are to wait for these only. Where there are none, for nobody, or in strict mode for any one.
    DropRequired(MemberSet),
    /// The sync key is to be removed.
    SwitchOff,
}

/// The standbys of a leader in synchronous mode.
#[derive(Clone, Copy)]
pub(crate) struct Standbys {
    /// Whom the sync key names as standby.
    pub published: MemberSet,
    /// Each whose confirmation commits wait for.
    pub required: MemberSet,
    /// Who is to be named.
    pub wanted: MemberSet,
    /// Who has confirmed the noted position.
    pub confirmed: MemberSet,
}
