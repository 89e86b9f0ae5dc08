//! Runs of serials.
ghost use Rattle.std.specs.Prelude.{◌≡◌, ◌≤◌, ◌+◌, ◌↔◌, IsTrue};

/// Serials that follow one another, one at least.
#[derive(Clone, Copy)]
pub(crate) struct SerialRun {
    pub(crate) first: u64,
    pub(crate) last: u64,
    ghost order: { first ≤ last },
}

impl SerialRun {
    /// Whether this serial follows the last one.
    pub(crate) fn goes_on_with(self, serial: u64) -> bool
        ensures { IsTrue result ↔ (serial ≡ self.last + 1) }
    {
        self.last < serial && serial - self.last == 1
    }
}
