//! Serials of commits.
ghost use Rattle.std.specs.Prelude.{◌≡◌, ◌≤◌, ◌++◌, ◌∷◌, ◌↔◌, [], IsTrue, IfSome, OnOk, OnErr};
ghost use Rattle.wal_model.specs.Serials.{serials_in, serials_of_run};

use crate::serial_run::SerialRun;
use std::alloc::{AllocError, Global};
use std::marker::Model;

/// Serials of commits, in the order in which they came. They are kept as runs of serials that follow one another, so those of
/// a server that commits alone take no more room than one.
#[derive(Drop)]
pub struct Serials {
    runs: Vec<SerialRun>,
}

impl Model for Serials {
    ghost use Rattle.std.specs.Prelude.{ℕ, List};
    ghost use Rattle.wal_model.specs.Serials.{serials_in};

    ghost Value = { List ℕ };

    ghost view = { λ serials. serials_in serials.runs.items };
}

impl Serials {
    /// No serials, which takes no memory.
    pub fn new(alloc: Global) -> Serials
        ensures { result ≡ [] }
    {
        Serials {
            runs: Vec::new(alloc),
        }
    }

    /// Appends a serial. It fails only for want of memory, and then stays as it was.
    pub fn push(&mut self, serial: u64) -> Result<(), AllocError>
        ensures ok { OnOk result (self.new ≡ self.old ++ serial ∷ []) }
        ensures err { OnErr result (self.new ≡ self.old) }
    {
        if let Some(last) = self.runs.len().checked_sub(1) {
            let run = self.runs[last];
            if run.goes_on_with(serial) {
                self.runs[last] = SerialRun {
                    first: run.first,
                    last: serial,
                };
                return Ok(());
            }
        }
        self.runs.push(SerialRun {
            first: serial,
            last: serial,
        })?;
        Ok(())
    }

    /// Whether there is none.
    pub fn is_empty(&self) -> bool
        ensures { IsTrue result ↔ (self.now ≡ []) }
    {
        self.runs.is_empty()
    }

    /// Its runs, in order.
    pub(crate) fn runs(&self) -> &[SerialRun]
        ensures { serials_in result.now ≡ self.now }
    {
        self.runs.as_slice()
    }
}
