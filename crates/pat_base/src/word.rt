//! The state of a server in one word.
use std::fmt;

/// The state of a server, as a member tells it in the key store and in its REST replies (Patroni, "Patroni REST API",
/// under "Monitoring endpoint": `state`).
#[derive(Clone, Copy, Debug, PartialEq, Eq)]
pub enum Word {
    /// A primary, or a replica that doesn't receive.
    Running,
    /// A replica that receives.
    Streaming,
    /// It starts, as a primary or as a replica.
    Starting,
    /// It shuts down.
    Stopping,
    /// It was shut down in an orderly way.
    Stopped,
    /// It ended without a shutdown.
    Crashed,
    /// A server that has no log yet.
    CreatingReplica,
}

impl Word {
    ghost use Rattle.std.specs.Prelude.{◌≡◌};
    ghost use Rattle.pat_base.specs.Word.{word_text};

    /// The word as text.
    pub fn as_str(self) -> &'static str
        ensures { result.now ≡ word_text self }
    {
        match self {
            Word::Running => "running",
            Word::Streaming => "streaming",
            Word::Starting => "starting",
            Word::Stopping => "stopping",
            Word::Stopped => "stopped",
            Word::Crashed => "crashed",
            Word::CreatingReplica => "creating replica",
        }
    }
}

impl fmt::Display for Word {
    ghost use Rattle.std.specs.Prelude.{Some};
    ghost use Rattle.pat_base.specs.Word.{word_text};

    ghost output = { λ word. Some (word_text word) };

    fn fmt<W: fmt::Write>(&self, f: &mut fmt::Formatter<W>) -> fmt::Result {
        f.write_str(self.as_str())
    }
}
