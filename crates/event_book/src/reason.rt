//! Why watchdogs are fed, and why servers are ended.
ghost use Rattle.std.specs.Prelude.{◌≡◌, ◌++◌, Option};
ghost use Rattle.pat_base.specs.declared.name.Name.{Name};
ghost use Rattle.event_book.specs.Reasons.{ineligibility_text, name_if, name_or_another};

use pat_base::{Ineligibility, MemberSet, Name};
use std::fmt;

/// What lets a leader feed its watchdog.
#[derive(Clone, Copy, PartialEq, Eq)]
pub enum Basis {
    /// The granted renewal that the answer of this number tells.
    Grant { answer: u64 },
    /// The acknowledgements of these members, to the failsafe request of this number in its incarnation.
    Acknowledgements { members: MemberSet, sequence: u64 },
}

/// Why an agent ends its server.
#[derive(Clone, Copy, PartialEq, Eq)]
pub enum Reason {
    StoreOutOfReach,
    FailsafeNotAcknowledged,
    LeaderKeyLost,
    StartTooLong,
    WatchdogNotArmed,
}

impl fmt::Display for Reason {
    ghost use Rattle.std.specs.Prelude.{Some};
    ghost use Rattle.event_book.specs.Reasons.{reason_text};

    ghost output = { λ reason. Some (reason_text reason) };

    fn fmt<W: fmt::Write>(&self, f: &mut fmt::Formatter<W>) -> fmt::Result {
        match self {
            Reason::StoreOutOfReach => f.write_str("the key store is out of reach"),
            Reason::FailsafeNotAcknowledged => f.write_str("failsafe was not acknowledged"),
            Reason::LeaderKeyLost => f.write_str("the leader key is lost"),
            Reason::StartTooLong => f.write_str("the start took too long"),
            Reason::WatchdogNotArmed => f.write_str("the watchdog is not armed"),
        }
    }
}

/// Why a member doesn't ask for a free leader key, with the name of the member that bars it.
#[derive(Clone, Copy)]
pub struct IneligibilityText {
    pub bar: Ineligibility,
    pub by: Option<Name>,
}

/// Another member, by its name where that is told.
pub fn name_or_another(name: &Option<Name>) -> &str
    ensures { result.now ≡ name_or_another name.now }
{
    match name {
        None => "another member",
        Some(name) => name.as_str(),
    }
}

impl fmt::Display for IneligibilityText {
    ghost use Rattle.std.specs.Prelude.{Some};
    ghost use Rattle.event_book.specs.Reasons.{ineligibility_text};

    ghost output = { λ text. Some (ineligibility_text text.bar text.by) };

    fn fmt<W: fmt::Write>(&self, f: &mut fmt::Formatter<W>) -> fmt::Result {
        let (tells_name, words) = words_of(self.bar);
        let front = name_if(tells_name, &self.by);
        write!(f, "{front}{words}")
    }
}

/// The words for why a member doesn't ask, and whether the name of another member stands in front of them.
fn words_of(bar: Ineligibility) -> (bool, &'static str)
    ensures { (by : Option Name) → name_if result.0 by ++ result.1.now ≡ ineligibility_text bar by }
{
    match bar {
        Ineligibility::NotRunning => (false, "its server is not a replica"),
        Ineligibility::NoFailover => (false, "it may not fail over"),
        Ineligibility::Paused => (false, "paused"),
        Ineligibility::Candidate(_) => (true, " is the candidate"),
        Ineligibility::NotSync => (false, "it is not in the sync key"),
        Ineligibility::TooFarBehind => (false, "it is too far behind"),
        Ineligibility::NotListed => (false, "it is not in the failsafe key"),
        Ineligibility::Hold => (false, "a failsafe hold"),
        Ineligibility::OtherWrites(_) => (true, " accepts writes"),
        Ineligibility::Ahead(_) => (true, " is ahead"),
        Ineligibility::TooFewAnswers => (false, "too few answers"),
        Ineligibility::Priority(_) => (true, " has a higher priority"),
    }
}

fn name_if(tells_name: bool, name: &Option<Name>) -> &str
    ensures { result.now ≡ name_if tells_name name.now }
{
    if tells_name {
        name_or_another(name)
    } else {
        ""
    }
}
