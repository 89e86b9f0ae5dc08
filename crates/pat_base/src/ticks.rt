//! Moments and spans.
ghost use Rattle.std.specs.Prelude.{◌≡◌, ◌+◌, ◌^◌, ◌<◌};

use std::fmt;
use std::ops::Add;

/// How many ticks a second has: one tick is 100 ms.
pub const TICKS_OF_SECOND: u64 = 10;

/// A moment, counted from the start of the run, or a span.
#[derive(Clone, Copy, Debug, PartialEq, Eq, PartialOrd, Ord)]
pub struct Ticks(pub u64);

impl Add for Ticks {
    type Output = Ticks;

    ghost can_add = { λ moment span. moment.0 + span.0 < 2 ^ 64 };

    ghost add_gives = { λ moment span later. later.0 ≡ moment.0 + span.0 };

    fn add(self, span: Ticks) -> Ticks {
        Ticks(self.0 + span.0)
    }
}

impl fmt::Display for Ticks {
    ghost use Rattle.std.specs.Prelude.{Some};
    ghost use Rattle.std.specs.Fmt.{decimal};

    ghost output = { λ moment. Some (decimal moment.0) };

    fn fmt<W: fmt::Write>(&self, f: &mut fmt::Formatter<W>) -> fmt::Result {
        let count = self.0;
        write!(f, "{count}")
    }
}
