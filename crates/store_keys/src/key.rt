//! The keys of a cluster.
use pat_base::MemberId;
use std::fmt;

/// A key of the store, in the order in which the store lists its keys. Patroni keeps them as paths under that of the
/// cluster, as `/leader` and `/members/NAME`.
#[derive(Clone, Copy, Debug, PartialEq, Eq, PartialOrd, Ord)]
pub enum Key {
    /// Which member leads: `/leader`, with a lease that its holder renews.
    Leader,
    /// The configuration of the cluster: `/config`, there for good.
    Config,
    /// What a member tells of itself: `/members/NAME`, with a lease.
    Member(MemberId),
    /// A failover or a switchover that was asked for: `/failover`, with a lease.
    Failover,
    /// Which members replicate synchronously: `/sync`.
    Sync,
    /// Where the leader's log ends: `/status`.
    Status,
    /// How this timeline ended, from 1: a row of `/history`.
    History(u64),
    /// The members that the leader may ask while the store is out of reach: `/failsafe`.
    Failsafe,
    /// A switchover that is to be asked for later. Patroni keeps it in `/failover`.
    Scheduled,
}

impl fmt::Display for Key {
    ghost use Rattle.std.specs.Prelude.{Some};
    ghost use Rattle.store_keys.specs.Words.{key_text};

    ghost output = { λ key. Some (key_text key) };

    fn fmt<W: fmt::Write>(&self, f: &mut fmt::Formatter<W>) -> fmt::Result {
        match *self {
            Key::Leader => f.write_str("leader"),
            Key::Config => f.write_str("config"),
            Key::Member(member) => {
                let number = member.number;
                write!(f, "members/{number}")
            }
            Key::Failover => f.write_str("failover"),
            Key::Sync => f.write_str("sync"),
            Key::Status => f.write_str("status"),
            Key::History(timeline) => write!(f, "history/{timeline}"),
            Key::Failsafe => f.write_str("failsafe"),
            Key::Scheduled => f.write_str("scheduled"),
        }
    }
}
