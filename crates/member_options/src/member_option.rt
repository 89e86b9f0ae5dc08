//! What the options of a member's line say, and what they declare.
use crate::{Priority, SafetyMargin};
use leader_key::Mode;
use pat_base::{Host, Tags};

/// One option of a member's line.
#[derive(Clone, Copy, PartialEq, Eq)]
pub enum MemberOption {
    /// `host=HOST`: where the others reach the member.
    Host(Host),
    /// `nofailover=true`.
    NoFailover,
    /// `nosync=true`.
    NoSync,
    /// `noloadbalance=true`.
    NoLoadBalance,
    /// `priority=N`.
    Priority(Priority),
    /// `watchdog=off`, `watchdog=automatic`, `watchdog=required`.
    Watchdog(Mode),
    /// `device=ok`, `device=broken`: whether the watchdog's device works.
    Device(bool),
    /// `margin=N`, in seconds, and `margin=-1`.
    Margin(SafetyMargin),
}

/// What the options of a member's line say, with `None` or `false` for what none of them says.
#[derive(Clone, Copy, PartialEq, Eq)]
pub struct SaidOptions {
    /// Where the others reach the member.
    pub host: Option<Host>,
    /// Whether the member never becomes the leader.
    pub nofailover: bool,
    /// Whether the member is never a synchronous standby.
    pub nosync: bool,
    /// Whether the member doesn't answer that it serves reads as a replica.
    pub noloadbalance: bool,
    /// The member's failover priority.
    pub priority: Option<Priority>,
    /// Whether the member uses a watchdog.
    pub watchdog: Option<Mode>,
    /// Whether the watchdog's device works.
    pub device_works: Option<bool>,
    /// How long before the end of a lease the watchdog's deadline lies.
    pub margin: Option<SafetyMargin>,
}

/// What a script declares of a member beside its name: where it is reached, its tags (Patroni documentation, "YAML
/// Configuration Settings", under "Tags"), and its watchdog ("Watchdog support").
#[derive(Clone, Copy, PartialEq, Eq)]
pub struct MemberOptions {
    /// Where the others reach the member: `127.0.0.1` where no option says it.
    pub host: Host,
    /// Its tags. Where no option says anything of them no flag is set, and the priority is 1.
    pub tags: Tags,
    /// Whether the member uses a watchdog: `Automatic` where no option says it.
    pub watchdog: Mode,
    /// Whether the device of its watchdog works, as it does where no option says it.
    pub device_works: bool,
    /// How long before the end of a lease its watchdog's deadline lies: 5 seconds where no option says it.
    pub margin: SafetyMargin,
}
