//! What shapes and labels are painted as.
ghost use Rattle.std.specs.Prelude.{◌≡◌};
ghost use Rattle.svg.specs.Shapes.{class_word};

/// What a shape or a label is painted as: its class, which the style sheet gives a colour. The colours are those of Okabe and Ito,
/// which colour-blind readers tell apart.
#[derive(Clone, Copy, PartialEq, Eq)]
pub enum Paint {
    /// What a server is.
    Replica,
    Starting,
    Primary,
    Stopping,
    Crashed,
    Wiped,
    /// Who holds the leader key.
    Holder,
    /// What an agent is.
    Held,
    Killed,
    Paused,
    /// Behind a lane.
    Ground,
    /// A stretch of time that is drawn shorter than it is.
    Shortened,
    /// A mark of a line, and one of a commit.
    Mark,
    Commit,
    /// Where a promise ends.
    Alarm,
    /// Labels: what a lane is called, and what stands in it.
    Heading,
    Label,
}

/// The class of a paint.
pub fn class_word(paint: Paint) -> &'static str
    ensures { result.now ≡ class_word paint }
{
    match paint {
        Paint::Replica => "replica",
        Paint::Starting => "starting",
        Paint::Primary => "primary",
        Paint::Stopping => "stopping",
        Paint::Crashed => "crashed",
        Paint::Wiped => "wiped",
        Paint::Holder => "holder",
        Paint::Held => "held",
        Paint::Killed => "killed",
        Paint::Paused => "paused",
        Paint::Ground => "ground",
        Paint::Shortened => "shortened",
        Paint::Mark => "mark",
        Paint::Commit => "commit",
        Paint::Alarm => "alarm",
        Paint::Heading => "heading",
        Paint::Label => "label",
    }
}
