//! What the summary is told, and what it answers.

use pat_base::{MOST_MEMBERS, Name, Ticks};

/// How many servers there may be: those of the members, and the remote primary.
pub const SERVERS: usize = MOST_MEMBERS + 1;

/// What a script declares of the watchdog of a member.
#[derive(Clone, Copy)]
pub struct WatchOf {
    /// Whose watchdog it is.
    pub name: Name,
    /// Its mode is `off`, so nothing arms it.
    pub mode_off: bool,
    /// Its device works: it resets the machine at the deadline.
    pub device_works: bool,
    /// How many ticks after a grant it may be armed or fed. `None` where it has no such condition.
    pub margin: Option<Ticks>,
}

/// What whoever notes an event sees beside it.
#[derive(Clone, Copy, PartialEq, Eq)]
pub struct Seen {
    /// After the event some server that accepts writes lacks an acknowledged commit. It is looked at only while that never
    /// was so.
    pub lacking: bool,
    /// How many ticks after the grant, or after the earliest acknowledgement, the event arms or feeds a watchdog; 0 for
    /// other events.
    pub lateness: u64,
}

/// Why nothing is promised of the writers any more.
#[derive(Clone, Copy, PartialEq, Eq)]
pub enum Breach {
    /// The watchdog of the member of this name is off or broken.
    Watchdog(Name),
    /// It was armed or fed later than its margin allows.
    LateWatchdog(Name),
    /// A configuration pauses the cluster.
    Pause,
    /// The operator of this member promoted its server.
    Operator(Name),
}

/// Whether the premises of the claim of one writer are met.
#[derive(Clone, Copy, PartialEq, Eq)]
pub enum Premises {
    /// They were met all the time.
    Met,
    /// They were broken first at this moment, for this reason.
    Broken { tick: Ticks, why: Breach },
}

/// Whether the cluster replicates synchronously.
#[derive(Clone, Copy, PartialEq, Eq)]
pub enum Synchronous {
    /// All the time.
    On,
    /// Never.
    Off,
    /// At this moment that changed first, or a member outside the sync key took the leader key.
    Broken(Ticks),
}

/// When something was so for the first time.
#[derive(Clone, Copy, PartialEq, Eq)]
pub enum FirstMoment {
    Never,
    At(Ticks),
}

/// How a run closes: the answers of its summary.
#[derive(Clone, Copy)]
pub struct Closing {
    /// The moment of its end.
    pub end: Ticks,
    pub premises: Premises,
    pub synchronous: Synchronous,
    /// When two servers accepted writes.
    pub two_writers: FirstMoment,
    /// By the number of a server, its name where it accepts writes at the end.
    pub writers: [Option<Name>; SERVERS],
    /// How many commits were acknowledged.
    pub acknowledged: u64,
    /// When a server that accepted writes lacked an acknowledged commit.
    pub lost: FirstMoment,
}
