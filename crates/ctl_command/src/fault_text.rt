//! How faults are printed.
use crate::tables::option_text;
use crate::{CtlFault, Needed};
use std::fmt;

impl Needed {
    ghost use Rattle.std.specs.Prelude.{◌≡◌};
    ghost use Rattle.ctl_command.specs.Tables.{needed_text};

    /// As the usage of a command names it.
    pub fn as_str(self) -> &'static str
        ensures { result.now ≡ needed_text self }
    {
        match self {
            Needed::Cluster => "CLUSTER",
            Needed::Member => "M",
            Needed::Value(option) => option_text(option),
        }
    }
}

impl fmt::Display for CtlFault<'_> {
    ghost use Rattle.std.specs.Prelude.{Some};
    ghost use Rattle.ctl_command.specs.Seen.{seen_fault};
    ghost use Rattle.ctl_command.specs.FaultTexts.{fault_text};

    ghost output = { λ fault. Some (fault_text (seen_fault fault)) };

    fn fmt<W: fmt::Write>(&self, f: &mut fmt::Formatter<W>) -> fmt::Result {
        match self {
            CtlFault::NoCommand => f.write_str("NoCommand"),
            CtlFault::Unknown(word) => write!(f, "Unknown({word})"),
            CtlFault::Missing(needed) => {
                let text = needed.as_str();
                write!(f, "Missing({text})")
            }
            CtlFault::Extra(word) => write!(f, "Extra({word})"),
        }
    }
}
