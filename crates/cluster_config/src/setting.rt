//! The settings of a cluster.
ghost use Rattle.std.specs.Prelude.{◌≡◌};
ghost use Rattle.cluster_config.specs.SettingTable.{setting_name, kind_of, range_in, range_of};

use pat_base::MOST_MEMBERS;
use std::fmt;

/// A setting that a configuration may hold, in the byte order of their names (Patroni's documentation, "Dynamic
/// Configuration Settings").
#[derive(Clone, Copy, Debug, PartialEq, Eq, PartialOrd, Ord)]
pub enum Setting {
    FailsafeMode,
    LoopWait,
    MaximumLagOnFailover,
    Pause,
    /// It stands in the object `postgresql`.
    UsePgRewind,
    PrimaryStartTimeout,
    RetryTimeout,
    StandbyCluster,
    SynchronousMode,
    SynchronousModeStrict,
    SynchronousNodeCount,
    Ttl,
}

/// All settings, in order.
pub(crate) const SETTINGS: [Setting; 12] = [
    Setting::FailsafeMode,
    Setting::LoopWait,
    Setting::MaximumLagOnFailover,
    Setting::Pause,
    Setting::UsePgRewind,
    Setting::PrimaryStartTimeout,
    Setting::RetryTimeout,
    Setting::StandbyCluster,
    Setting::SynchronousMode,
    Setting::SynchronousModeStrict,
    Setting::SynchronousNodeCount,
    Setting::Ttl,
];

/// The least and the greatest value of a setting that is a number, in seconds, bytes or standbys.
#[derive(Clone, Copy, PartialEq, Eq)]
pub struct SettingRange {
    pub least: u64,
    pub greatest: u64,
}

/// What a setting holds.
#[derive(Clone, Copy, PartialEq, Eq)]
pub(crate) enum SettingKind {
    Number(SettingRange),
    Truth,
    /// An object of JSON, which is kept in the text and not read.
    Kept,
}

/// A day, in seconds: the longest time that a setting may say.
const LONGEST: u64 = 86_400;

pub(crate) const LOOP_WAIT: SettingRange = SettingRange {
    least: 1,
    greatest: LONGEST,
};

pub(crate) const RETRY_TIMEOUT: SettingRange = SettingRange {
    least: 3,
    greatest: LONGEST,
};

pub(crate) const TTL: SettingRange = SettingRange {
    least: 20,
    greatest: LONGEST,
};

pub(crate) const MAXIMUM_LAG: SettingRange = SettingRange {
    least: 0,
    greatest: 1 << 62,
};

pub(crate) const PRIMARY_START_TIMEOUT: SettingRange = SettingRange {
    least: 0,
    greatest: LONGEST,
};

pub(crate) const NODE_COUNT: SettingRange = SettingRange {
    least: 1,
    greatest: MOST_MEMBERS as u64,
};

/// The name of a setting in the text of a configuration, with that of the object that it stands in.
pub(crate) fn setting_name(setting: Setting) -> &'static str
    ensures { result.now ≡ setting_name setting }
{
    match setting {
        Setting::FailsafeMode => "failsafe_mode",
        Setting::LoopWait => "loop_wait",
        Setting::MaximumLagOnFailover => "maximum_lag_on_failover",
        Setting::Pause => "pause",
        Setting::UsePgRewind => "postgresql.use_pg_rewind",
        Setting::PrimaryStartTimeout => "primary_start_timeout",
        Setting::RetryTimeout => "retry_timeout",
        Setting::StandbyCluster => "standby_cluster",
        Setting::SynchronousMode => "synchronous_mode",
        Setting::SynchronousModeStrict => "synchronous_mode_strict",
        Setting::SynchronousNodeCount => "synchronous_node_count",
        Setting::Ttl => "ttl",
    }
}

/// What a setting holds.
pub(crate) fn kind_of(setting: Setting) -> SettingKind
    ensures { result ≡ kind_of setting }
{
    match setting {
        Setting::LoopWait => SettingKind::Number(LOOP_WAIT),
        Setting::MaximumLagOnFailover => SettingKind::Number(MAXIMUM_LAG),
        Setting::PrimaryStartTimeout => SettingKind::Number(PRIMARY_START_TIMEOUT),
        Setting::RetryTimeout => SettingKind::Number(RETRY_TIMEOUT),
        Setting::SynchronousNodeCount => SettingKind::Number(NODE_COUNT),
        Setting::Ttl => SettingKind::Number(TTL),
        Setting::FailsafeMode
        | Setting::Pause
        | Setting::UsePgRewind
        | Setting::SynchronousMode
        | Setting::SynchronousModeStrict => SettingKind::Truth,
        Setting::StandbyCluster => SettingKind::Kept,
    }
}

/// The range of a kind. `None` exactly where that is no number.
fn range_in(kind: SettingKind) -> Option<SettingRange>
    ensures { result ≡ range_in kind }
{
    match kind {
        SettingKind::Number(range) => Some(range),
        SettingKind::Truth | SettingKind::Kept => None,
    }
}

impl Setting {
    /// The name of the setting in the text of a configuration; of one in an object, with that of the object.
    pub fn name(self) -> &'static str
        ensures { result.now ≡ setting_name self }
    {
        setting_name(self)
    }

    /// The range of a setting that is a number. `None` exactly for another one.
    pub fn range(self) -> Option<SettingRange>
        ensures { result ≡ range_of self }
    {
        range_in(kind_of(self))
    }
}

impl fmt::Display for Setting {
    ghost use Rattle.std.specs.Prelude.{Some};
    ghost use Rattle.cluster_config.specs.SettingTable.{setting_name};

    ghost output = { λ setting. Some (setting_name setting) };

    fn fmt<W: fmt::Write>(&self, f: &mut fmt::Formatter<W>) -> fmt::Result {
        f.write_str(self.name())
    }
}
