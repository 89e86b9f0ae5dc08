//! What an agent answers operators.
ghost use Rattle.std.specs.Prelude.{◌≡◌};
ghost use Rattle.operator_answers.specs.AnswerTexts.{answer_text, IfFixed};

use cluster_config::ConfigFault;
use pat_base::Name;
use std::fmt;

/// What an agent answers to a request of an operator, in the words of Patroni's REST API and of its own (Patroni's
/// documentation of the REST API, under "Switchover and failover endpoints", "Restart endpoint", "Reinitialize endpoint"
/// and "Config endpoint", and "DCS Failsafe Mode"). Each is printed in the words beside it.
#[derive(Clone, Copy, Debug, PartialEq, Eq)]
pub enum Text {
    /// `Bad body`
    BadBody,
    /// `No key store answer yet`
    NoStoreAnswer,
    /// `Another request is waiting`
    AnotherWaits,
    /// `Switchover could be performed only from a specific leader`
    LeaderNotNamed,
    /// `Failover could be performed only to a specific candidate`
    CandidateNotNamed,
    /// `Switchover target and source are the same`
    TargetIsSource,
    /// `Switchover is possible only to a specific candidate in a paused state`
    PausedWithoutCandidate,
    /// `Scheduled actions are not built`
    ScheduledNotBuilt,
    /// `leader name does not match`
    OtherLeader,
    /// `candidate is the leader`
    CandidateLeads,
    /// `Another switchover is under way`
    AnotherUnderWay,
    /// `candidate does not exist`
    NoSuchCandidate,
    /// `candidate name does not match with sync_standby`
    CandidateNotStandby,
    /// `candidate may not fail over`
    CandidateMayNotFailOver,
    /// `no good candidates have been found`
    NoGoodCandidates,
    /// `Successfully switched over to "NAME"`: the new leader
    SwitchedOver(Name),
    /// `Successfully failed over to "NAME"`: the new leader
    FailedOver(Name),
    /// `Switchover failed`
    SwitchoverFailed,
    /// `Failover failed`
    FailoverFailed,
    /// `No result in time`
    NoResultInTime,
    /// `No scheduled switchover`
    NoScheduledSwitchover,
    /// `PostgreSQL is not running`
    NotRunning,
    /// `restarted`
    Restarted,
    /// `I am the leader`
    IsLeader,
    /// `reinitialize started`
    ReinitializeStarted,
    /// `Configuration was not written`
    ConfigurationNotWritten,
    /// `Accepted`: a failsafe request is acknowledged
    Accepted,
    /// `Refused`: it isn't
    Refused,
    /// What is at fault in a configuration, as `ConfigFault` is printed: `NotJson`, `BelowMinimum(ttl)`
    BadConfiguration(ConfigFault),
}

impl fmt::Display for Text {
    ghost use Rattle.std.specs.Prelude.{Some};
    ghost use Rattle.operator_answers.specs.AnswerTexts.{answer_text};

    ghost output = { λ text. Some (answer_text text) };

    fn fmt<W: fmt::Write>(&self, f: &mut fmt::Formatter<W>) -> fmt::Result {
        match self {
            Text::SwitchedOver(name) => write!(f, "Successfully switched over to \"{name}\""),
            Text::FailedOver(name) => write!(f, "Successfully failed over to \"{name}\""),
            Text::BadConfiguration(fault) => write!(f, "{}", FaultName(*fault)),
            other => f.write_str(fixed_words(other)),
        }
    }
}

/// The words of a text that is always the same.
fn fixed_words(text: &Text) -> &'static str
    ensures { IfFixed text.now (result.now ≡ answer_text text.now) }
{
    match text {
        Text::BadBody => "Bad body",
        Text::NoStoreAnswer => "No key store answer yet",
        Text::AnotherWaits => "Another request is waiting",
        Text::LeaderNotNamed => "Switchover could be performed only from a specific leader",
        Text::CandidateNotNamed => "Failover could be performed only to a specific candidate",
        Text::TargetIsSource => "Switchover target and source are the same",
        Text::PausedWithoutCandidate => {
            "Switchover is possible only to a specific candidate in a paused state"
        }
        Text::ScheduledNotBuilt => "Scheduled actions are not built",
        Text::OtherLeader => "leader name does not match",
        Text::CandidateLeads => "candidate is the leader",
        Text::AnotherUnderWay => "Another switchover is under way",
        Text::NoSuchCandidate => "candidate does not exist",
        Text::CandidateNotStandby => "candidate name does not match with sync_standby",
        Text::CandidateMayNotFailOver => "candidate may not fail over",
        Text::NoGoodCandidates => "no good candidates have been found",
        Text::SwitchoverFailed => "Switchover failed",
        Text::FailoverFailed => "Failover failed",
        Text::NoResultInTime => "No result in time",
        Text::NoScheduledSwitchover => "No scheduled switchover",
        Text::NotRunning => "PostgreSQL is not running",
        Text::Restarted => "restarted",
        Text::IsLeader => "I am the leader",
        Text::ReinitializeStarted => "reinitialize started",
        Text::ConfigurationNotWritten => "Configuration was not written",
        Text::Accepted => "Accepted",
        Text::Refused => "Refused",
        Text::SwitchedOver(_) | Text::FailedOver(_) | Text::BadConfiguration(_) => "",
    }
}

/// What is at fault in a configuration, in the words of `ConfigFault`, which no contract has.
#[derive(Drop)]
struct FaultName(ConfigFault);

impl fmt::Display for FaultName {
    ghost use Rattle.std.specs.Prelude.{Some};
    ghost use Rattle.operator_answers.specs.AnswerTexts.{fault_text};

    ghost output = { λ name. Some (fault_text name.0) };

    fn fmt<W: fmt::Write>(&self, f: &mut fmt::Formatter<W>) -> fmt::Result {
        match self.0 {
            ConfigFault::NotJson => f.write_str("NotJson"),
            ConfigFault::NotObject => f.write_str("NotObject"),
            ConfigFault::BadValue(setting) => write!(f, "BadValue({setting})"),
            ConfigFault::BelowMinimum(setting) => write!(f, "BelowMinimum({setting})"),
            ConfigFault::TimesRule => f.write_str("TimesRule"),
            ConfigFault::Fraction => f.write_str("Fraction"),
            ConfigFault::NotBuilt(setting) => write!(f, "NotBuilt({setting})"),
            ConfigFault::Memory => f.write_str("Memory"),
        }
    }
}
