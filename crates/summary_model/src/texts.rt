//! How the answers of a summary are written.

use crate::{Breach, FirstMoment, Premises, Synchronous};
use std::fmt;

impl fmt::Display for Breach {
    ghost use Rattle.std.specs.Prelude.{Some};
    ghost use Rattle.summary_model.specs.SummaryText.{breach_text};

    ghost output = { λ breach. Some (breach_text breach) };

    fn fmt<W: fmt::Write>(&self, f: &mut fmt::Formatter<W>) -> fmt::Result {
        match self {
            Breach::Watchdog(name) => write!(f, "the watchdog of {name}"),
            Breach::LateWatchdog(name) => write!(f, "a late watchdog of {name}"),
            Breach::Pause => f.write_str("a pause"),
            Breach::Operator(name) => write!(f, "an operator on {name}"),
        }
    }
}

impl fmt::Display for Premises {
    ghost use Rattle.std.specs.Prelude.{Some};
    ghost use Rattle.summary_model.specs.SummaryText.{premises_text};

    ghost output = { λ premises. Some (premises_text premises) };

    fn fmt<W: fmt::Write>(&self, f: &mut fmt::Formatter<W>) -> fmt::Result {
        match self {
            Premises::Met => f.write_str("met"),
            Premises::Broken { tick, why } => write!(f, "broken at {tick} by {why}"),
        }
    }
}

impl fmt::Display for Synchronous {
    ghost use Rattle.std.specs.Prelude.{Some};
    ghost use Rattle.summary_model.specs.SummaryText.{synchronous_text};

    ghost output = { λ synchronous. Some (synchronous_text synchronous) };

    fn fmt<W: fmt::Write>(&self, f: &mut fmt::Formatter<W>) -> fmt::Result {
        match self {
            Synchronous::On => f.write_str("on"),
            Synchronous::Off => f.write_str("off"),
            Synchronous::Broken(tick) => write!(f, "broken at {tick}"),
        }
    }
}

impl fmt::Display for FirstMoment {
    ghost use Rattle.std.specs.Prelude.{Some};
    ghost use Rattle.summary_model.specs.SummaryText.{first_text};

    ghost output = { λ first. Some (first_text first) };

    fn fmt<W: fmt::Write>(&self, f: &mut fmt::Formatter<W>) -> fmt::Result {
        match self {
            FirstMoment::Never => f.write_str("never"),
            FirstMoment::At(tick) => write!(f, "first at {tick}"),
        }
    }
}
