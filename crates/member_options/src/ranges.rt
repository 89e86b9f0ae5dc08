//! Numbers of options, with their ranges.
ghost use Rattle.std.specs.Prelude.{◌≤◌, ◌≤ℤ◌, pos, negsuc};
ghost use Rattle.member_options.specs.Margins.{longest_margin};

use pat_base::{TICKS_OF_SECOND, Ticks};

/// The longest margin, in seconds.
const LONGEST_MARGIN: u64 = 15;

/// The greatest priority, and the lowest one without its sign.
const GREATEST_PRIORITY: u64 = 1_000;

/// The priority that no option says.
const UNSAID_PRIORITY: i64 = 1;

/// The margin that no option says, in seconds.
const UNSAID_MARGIN: u64 = 5;

/// How long before the end of a lease the deadline of a watchdog lies (Patroni documentation, "Watchdog support": `safety_margin`).
#[derive(Clone, Copy, PartialEq, Eq)]
pub enum SafetyMargin {
    /// Half of the lease: `margin=-1`.
    HalfOfLease,
    /// So many seconds.
    Seconds(Margin),
}

impl SafetyMargin {
    ghost use Rattle.std.specs.Prelude.{◌≡◌, ◌≤◌, IfSome};
    ghost use Rattle.leader_key.specs.Watchdog.{greatest_margin};
    ghost use Rattle.member_options.specs.Options.{default_safety_margin, is_default_margin, margin_span};

    /// The margin in ticks of 100 ms. `None` where it is half of the lease.
    pub fn span(self) -> Option<Ticks>
        ensures span { result ≡ margin_span self }
        ensures short { IfSome result (λ span. span.0 ≤ greatest_margin) }
    {
        match self {
            SafetyMargin::HalfOfLease => None,
            SafetyMargin::Seconds(margin) => Some(Ticks(TICKS_OF_SECOND * margin.seconds)),
        }
    }

    /// Whether it is that of a member whose line says none.
    pub fn is_unsaid(self) -> bool
        ensures { result ≡ is_default_margin self }
    {
        match self {
            SafetyMargin::HalfOfLease => false,
            SafetyMargin::Seconds(margin) => margin.seconds == UNSAID_MARGIN,
        }
    }

    /// The margin of a member whose line says none: 5 seconds.
    pub(crate) fn unsaid() -> Self
        ensures { result ≡ default_safety_margin }
    {
        SafetyMargin::Seconds(Margin::unsaid())
    }
}

/// A margin in seconds: at most 15.
#[derive(Clone, Copy, PartialEq, Eq)]
pub struct Margin {
    /// At most 15.
    pub seconds: u64,
    ghost most: { seconds ≤ longest_margin },
}

impl Margin {
    ghost use Rattle.std.specs.Prelude.{◌≡◌, ◌≤◌, ◌↔◌, IsSome, IfSome};
    ghost use Rattle.member_options.specs.Margins.{longest_margin};
    ghost use Rattle.member_options.specs.Ranges.{margin_of, default_margin};

    /// A margin of so many seconds. `None` exactly where they are more than 15.
    pub fn new(number: u64) -> Option<Self>
        ensures found { IsSome result ↔ (number ≤ longest_margin) }
        ensures value { IfSome result (λ margin. margin.seconds ≡ number) }
        ensures by_number { result ≡ margin_of number }
    {
        if number > LONGEST_MARGIN {
            None
        } else {
            Some(Margin { seconds: number })
        }
    }

    /// The margin that no option says: 5 seconds.
    fn unsaid() -> Self
        ensures { result ≡ default_margin }
    {
        Margin {
            seconds: UNSAID_MARGIN,
        }
    }
}

/// The failover priority of a member: -1000 to 1000 (Patroni documentation, "YAML Configuration Settings", under "Tags").
#[derive(Clone, Copy, PartialEq, Eq)]
pub struct Priority {
    /// From -1000 to 1000.
    pub number: i64,
    ghost lowest: { negsuc 999 ≤ℤ number },
    ghost highest: { number ≤ℤ pos 1000 },
}

impl Priority {
    ghost use Rattle.std.specs.Prelude.{◌≡◌};
    ghost use Rattle.member_options.specs.Ranges.{priority_from_zero, priority_below_zero, default_priority};

    /// The priority of this number. `None` exactly where it is more than 1000.
    pub fn from_zero(number: u64) -> Option<Self>
        ensures { result ≡ priority_from_zero number }
    {
        if number > GREATEST_PRIORITY {
            None
        } else {
            Some(Priority {
                number: number as i64,
            })
        }
    }

    /// The priority of this number with a minus sign. `None` exactly where it is 0 or more than 1000.
    pub fn below_zero(number: u64) -> Option<Self>
        ensures { result ≡ priority_below_zero number }
    {
        if number == 0 || number > GREATEST_PRIORITY {
            None
        } else {
            Some(Priority {
                number: -(number as i64),
            })
        }
    }

    /// The priority of a member whose line says none: 1.
    pub fn unsaid() -> Self
        ensures { result ≡ default_priority }
    {
        Priority {
            number: UNSAID_PRIORITY,
        }
    }
}
