//! What agents note.

use crate::reason::{IneligibilityText, name_or_another};
use pat_base::{Ineligibility, MemberId, Name};
use std::fmt;

/// What an agent notes: it is printed, and changes nothing.
#[derive(Clone, Copy, PartialEq, Eq)]
pub enum AgentNote {
    /// The member needs a watchdog, and its device doesn't work.
    CannotArm,
    /// In a pause: the deadline was removed on a renewal of the leader key.
    DisablesWatchdog,
    /// The member keeps the leader key without beginning: its claim of the sync key failed.
    PostponesPromotion,
    /// In a pause: the server runs on as a primary without the leader key.
    RunsWithoutKey,
    /// The member doesn't race for the free leader key, since this bars it.
    DoesNotRace { because: Ineligibility },
    /// The member hands over to this one.
    HandsOver { candidate: MemberId },
}

/// A note, with the name of the member that it speaks of.
#[derive(Clone, Copy)]
pub struct AgentNoteText {
    pub note: AgentNote,
    pub about: Option<Name>,
}

impl fmt::Display for AgentNoteText {
    ghost use Rattle.std.specs.Prelude.{Some};
    ghost use Rattle.event_book.specs.Reasons.{agent_note_text};

    ghost output = { λ text. Some (agent_note_text text.note text.about) };

    fn fmt<W: fmt::Write>(&self, f: &mut fmt::Formatter<W>) -> fmt::Result {
        match self.note {
            AgentNote::CannotArm => f.write_str("cannot arm its watchdog"),
            AgentNote::DisablesWatchdog => f.write_str("disables its watchdog"),
            AgentNote::PostponesPromotion => f.write_str("postpones its promotion"),
            AgentNote::RunsWithoutKey => f.write_str("runs as primary without the leader key"),
            AgentNote::DoesNotRace { because } => {
                let why = IneligibilityText {
                    bar: because,
                    by: self.about,
                };
                write!(f, "does not race: {why}")
            }
            AgentNote::HandsOver { .. } => {
                let next = name_or_another(&self.about);
                write!(f, "hands over to {next}")
            }
        }
    }
}
