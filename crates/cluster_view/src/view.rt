//! What agents show of themselves.
ghost use Rattle.std.specs.Prelude.{◌≡◌};
ghost use Rattle.cluster_view.specs.Roles.{has_key};

use crate::Snapshot;
use pat_base::{Lsn, MOST_MEMBERS, MemberId, Name, Required, State, Tags, Ticks};

/// What an agent is to its cluster.
#[derive(Clone, Copy, PartialEq, Eq)]
pub enum RoleWord {
    /// It has no lease.
    Follower,
    /// It has the leader key, and its server isn't up to write.
    Holder,
    /// It has the leader key and an armed watchdog, and is about to begin.
    Ready,
    /// Its server accepts writes, or will when its start is complete.
    Leader,
    /// It ends its server, and has the leader key until that has ended.
    Ending,
    /// Its server accepts writes, or will, while it has no lease.
    Unleased,
}

impl RoleWord {
    /// Whether an agent in this role has the leader key.
    pub fn has_key(self) -> bool
        ensures { result ≡ has_key self }
    {
        match self {
            RoleWord::Holder | RoleWord::Ready | RoleWord::Leader | RoleWord::Ending => true,
            RoleWord::Follower | RoleWord::Unleased => false,
        }
    }
}

/// What an agent shows of itself and of its server at a moment: to operators, to other members, and to those who ask about
/// health. Moments are in ticks of 100 ms.
#[derive(Clone, Copy)]
pub struct AgentView<'a> {
    pub moment: Ticks,
    pub scope: Name,
    pub me: MemberId,
    pub name: Name,
    pub tags: Tags,
    /// The server: its state, its timeline, where its log ends, whether it receives from its upstream, whether its log
    /// diverged, and whether its last run was a primary.
    pub state: State,
    pub timeline: u64,
    pub end: Option<Lsn>,
    pub receives: bool,
    pub diverged: bool,
    pub was_primary: bool,
    pub role: RoleWord,
    /// The newest snapshot that it accepted, if any.
    pub seen: Option<&'a Snapshot>,
    /// When its last read was answered, and when its last turn began.
    pub last_read: Option<Ticks>,
    pub last_turn: Option<Ticks>,
    /// Until when it has promised not to take the leader key.
    pub hold: Option<Ticks>,
    /// Whether a request of an operator waits.
    pub waits: bool,
}

/// What the agent of the leader knows besides of its server: on whom its commits wait, and who confirmed how much.
#[derive(Clone, Copy)]
pub struct LeaderView<'a> {
    pub view: AgentView<'a>,
    /// Whose confirmation a commit waits for.
    pub required: Required,
    /// By member number, the confirmed position of each connected member: one that receives from this server, and of which
    /// the server keeps a confirmed position.
    pub confirmed_positions: [Option<Lsn>; MOST_MEMBERS],
    /// The position that was noted last, when the required list last changed.
    pub noted: Option<Lsn>,
}
