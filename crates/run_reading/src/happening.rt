//! What lines of a printed run tell.
ghost use Rattle.std.specs.Prelude.{◌≡◌};
ghost use Rattle.run_reading.specs.Forms.{tail_of, words_of};

/// What a line tells of a member, of its agent or of its server; the last four are told of the key store and of commits.
#[derive(Clone, Copy, Debug, PartialEq, Eq)]
pub enum Happening {
    TakesKey,
    ReleasesKey,
    ClaimsSync,
    RemovesSync,
    WritesFailover,
    ClearsFailover,
    ChangesConfiguration,
    IsReset,
    AcceptsNoMore,
    Crashes,
    IsPromoted,
    StartsAsReplica,
    IsFrozen,
    IsThawed,
    IsWiped,
    IsHeld,
    Resumes,
    IsKilled,
    IsStarted,
    RefusesCommit,
    RunsAlready,
    GivesNoAnswer,
    CannotArm,
    DisablesWatchdog,
    PostponesPromotion,
    RunsWithoutKey,
    StaysByFailsafe,
    Arms,
    Feeds,
    AcceptsWrites,
    Follows,
    IsCloned,
    Answers,
    HandsOver,
    DoesNotRace,
    EndsServer,
    Diverges,
    IsRewound,
    Requires,
    PublishesSync,
    KeyExpires,
    IsRefused,
    Commits,
    IsAcknowledged,
}

/// What stands behind the words of a line.
#[derive(Clone, Copy, PartialEq, Eq)]
pub(crate) enum Tail {
    Nothing,
    Number,
    Name,
    Text,
}

/// What lines tell that have a moment, a name and then words.
pub(crate) const NAMED: [Happening; 40] = [
    Happening::TakesKey,
    Happening::ReleasesKey,
    Happening::ClaimsSync,
    Happening::RemovesSync,
    Happening::WritesFailover,
    Happening::ClearsFailover,
    Happening::ChangesConfiguration,
    Happening::IsReset,
    Happening::AcceptsNoMore,
    Happening::Crashes,
    Happening::IsPromoted,
    Happening::StartsAsReplica,
    Happening::IsFrozen,
    Happening::IsThawed,
    Happening::IsWiped,
    Happening::IsHeld,
    Happening::Resumes,
    Happening::IsKilled,
    Happening::IsStarted,
    Happening::RefusesCommit,
    Happening::RunsAlready,
    Happening::GivesNoAnswer,
    Happening::CannotArm,
    Happening::DisablesWatchdog,
    Happening::PostponesPromotion,
    Happening::RunsWithoutKey,
    Happening::StaysByFailsafe,
    Happening::Arms,
    Happening::Feeds,
    Happening::AcceptsWrites,
    Happening::Follows,
    Happening::IsCloned,
    Happening::Answers,
    Happening::HandsOver,
    Happening::DoesNotRace,
    Happening::EndsServer,
    Happening::Diverges,
    Happening::IsRewound,
    Happening::Requires,
    Happening::PublishesSync,
];

/// The words behind the name; the last four have none.
pub(crate) fn words_of(happening: Happening) -> &'static str
    ensures { result.now ≡ words_of happening }
{
    match happening {
        Happening::TakesKey => "takes the leader key",
        Happening::ReleasesKey => "releases the leader key",
        Happening::ClaimsSync => "claims the sync key",
        Happening::RemovesSync => "removes the sync key",
        Happening::WritesFailover => "writes the failover key",
        Happening::ClearsFailover => "clears the failover key",
        Happening::ChangesConfiguration => "changes the configuration",
        Happening::IsReset => "is reset by its watchdog",
        Happening::AcceptsNoMore => "no longer accepts writes",
        Happening::Crashes => "crashed",
        Happening::IsPromoted => "is promoted by its operator",
        Happening::StartsAsReplica => "starts as a replica",
        Happening::IsFrozen => "is frozen",
        Happening::IsThawed => "is thawed",
        Happening::IsWiped => "is wiped",
        Happening::IsHeld => "is held",
        Happening::Resumes => "resumes",
        Happening::IsKilled => "is killed",
        Happening::IsStarted => "is started",
        Happening::RefusesCommit => "refuses a commit",
        Happening::RunsAlready => "is already running",
        Happening::GivesNoAnswer => "gives no answer",
        Happening::CannotArm => "cannot arm its watchdog",
        Happening::DisablesWatchdog => "disables its watchdog",
        Happening::PostponesPromotion => "postpones its promotion",
        Happening::RunsWithoutKey => "runs as primary without the leader key",
        Happening::StaysByFailsafe => "stays primary by failsafe",
        Happening::Arms => "arms its watchdog until ",
        Happening::Feeds => "feeds its watchdog until ",
        Happening::AcceptsWrites => "accepts writes on timeline ",
        Happening::Follows => "follows ",
        Happening::IsCloned => "is cloned from ",
        Happening::Answers => "answers ",
        Happening::HandsOver => "hands over to ",
        Happening::DoesNotRace => "does not race: ",
        Happening::EndsServer => "ends its server: ",
        Happening::Diverges => "diverges from ",
        Happening::IsRewound => "is rewound to ",
        Happening::Requires => "requires ",
        Happening::PublishesSync => "publishes sync standbys ",
        Happening::KeyExpires
        | Happening::IsRefused
        | Happening::Commits
        | Happening::IsAcknowledged => "",
    }
}

/// What stands behind the words.
pub(crate) fn tail_of(happening: Happening) -> Tail
    ensures { result ≡ tail_of happening }
{
    match happening {
        Happening::Arms | Happening::Feeds | Happening::AcceptsWrites => Tail::Number,
        Happening::Follows | Happening::IsCloned => Tail::Name,
        Happening::Answers
        | Happening::HandsOver
        | Happening::DoesNotRace
        | Happening::EndsServer
        | Happening::Diverges
        | Happening::IsRewound
        | Happening::Requires
        | Happening::PublishesSync => Tail::Text,
        _ => Tail::Nothing,
    }
}
