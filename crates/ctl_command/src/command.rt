//! What a line of `patronictl` asks for.
use crate::Setting;
use pat_base::MemberId;

/// What a line of `patronictl` asks for (Patroni documentation, "patronictl").
#[derive(Clone, Copy, PartialEq, Eq)]
pub enum Command<'a> {
    /// `list [CLUSTER]`: the members and their state.
    List,
    /// `history [CLUSTER]`: the failovers and switchovers so far.
    History,
    /// `show-config [CLUSTER]`: the dynamic configuration.
    ShowConfig,
    /// `pause [CLUSTER]`: automatic failover is put in pause.
    Pause,
    /// `resume [CLUSTER]`: it is taken out of pause.
    Resume,
    /// `edit-config [CLUSTER] --set KEY=VALUE`: this setting of the dynamic configuration is changed.
    EditConfig(Setting<'a>),
    /// `switchover [CLUSTER] --leader M [--candidate M]`: the leader steps down, for the candidate if one is named.
    Switchover {
        leader: MemberId,
        candidate: Option<MemberId>,
    },
    /// `failover [CLUSTER] --candidate M`: the candidate is to lead, whoever leads now.
    Failover {
        candidate: MemberId,
    },
    /// `restart CLUSTER M`: the server of this member is restarted.
    Restart(MemberId),
    /// `reinit CLUSTER M`: the server of this member is made anew.
    Reinit(MemberId),
}
