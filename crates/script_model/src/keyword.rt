//! The first words of lines.

/// What a line is about: its first word.
#[derive(Clone, Copy, PartialEq, Eq)]
pub enum Keyword {
    Cluster,
    Config,
    Base,
    Member,
    Tick,
    Run,
    Turn,
    Deliver,
    Lose,
    Hold,
    Resume,
    Kill,
    Restart,
    Crash,
    Promote,
    Commit,
    Stream,
    Freeze,
    Thaw,
    Cut,
    Join,
    Slow,
    Rest,
    Ctl,
    Trace,
}
