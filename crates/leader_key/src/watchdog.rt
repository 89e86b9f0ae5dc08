//! Watchdogs.
use pat_base::Ticks;
use std::marker::Model;

/// Whether a member uses a watchdog: Patroni's setting `watchdog.mode` (Patroni documentation, "Watchdog support").
#[derive(Clone, Copy, PartialEq, Eq)]
pub enum Mode {
    /// It uses none.
    Off,
    /// It uses one where the device works, and leads without one where it doesn't.
    Automatic,
    /// It doesn't lead where the device doesn't work.
    Required,
}

/// The watchdog of a member's machine. It resets the machine at its deadline, unless it is fed or disarmed before: the
/// server crashes, and the agent ends.
#[derive(Drop)]
pub struct Watchdog {
    mode: Mode,
    works: bool,
    margin: Option<Ticks>,
    deadline: Option<Ticks>,
}

impl Model for Watchdog {
    ghost use Rattle.std.specs.Prelude.{◌≤◌, IfSome};
    ghost use Rattle.leader_key.specs.Watchdog.{WatchdogFacts, greatest_margin};

    ghost Value = { WatchdogFacts };

    ghost view = { λ w. record { mode = w.mode; works = w.works; margin = w.margin; deadline = w.deadline } };

    ghost invariant = { λ w. IfSome w.margin (λ margin. margin.0 ≤ greatest_margin) };
}

impl Watchdog {
    ghost use Rattle.std.specs.Prelude.{◌≡◌, ◌+◌, ◌≤◌, ◌↔◌, ◌^◌, None, IfSome, IsTrue};
    ghost use Rattle.leader_key.specs.Watchdog.{WatchdogFacts, HasMargin, IsLeaseSpan, IsRefusing, greatest_margin, fed, is_armable, is_due_at, is_late, timeout_of};
    ghost use Rattle.pat_base.specs.Moments.{latest};

    /// A watchdog without a deadline. `works` tells whether its device works. `margin` is the span between its deadline and
    /// the end of the lease on which it is fed, 0 to 150 ticks of 100 ms; without one the deadline lies half a lease ahead, as
    /// with Patroni's `safety_margin: -1`.
    pub fn new(mode: Mode, works: bool, margin: Option<Ticks>) -> Watchdog
        requires { IfSome margin (λ margin. margin.0 ≤ greatest_margin) }
        ensures { result ≡ record { mode = mode; works = works; margin = margin; deadline = None } }
    {
        Watchdog::with_deadline(mode, works, margin, None)
    }

    /// The same, with this deadline.
    pub fn with_deadline(
        mode: Mode,
        works: bool,
        margin: Option<Ticks>,
        deadline: Option<Ticks>,
    ) -> Watchdog
        requires { IfSome margin (λ margin. margin.0 ≤ greatest_margin) }
        ensures { result ≡ record { mode = mode; works = works; margin = margin; deadline = deadline } }
    {
        Watchdog {
            mode,
            works,
            margin,
            deadline,
        }
    }

    /// Whether a member uses it.
    pub fn mode(&self) -> Mode
        ensures { result ≡ self.now.mode }
    {
        self.mode
    }

    /// Whether its device works.
    pub fn works(&self) -> bool
        ensures { result ≡ self.now.works }
    {
        self.works
    }

    /// The moment at which it resets the machine, if it is armed.
    pub fn deadline(&self) -> Option<Ticks>
        ensures { result ≡ self.now.deadline }
    {
        self.deadline
    }

    /// Whether it resets the machine at this moment, or should have before.
    pub fn is_due(&self, now: Ticks) -> bool
        ensures { result ≡ is_due_at now.0 self.now.deadline }
    {
        match self.deadline {
            None => false,
            Some(deadline) => deadline <= now,
        }
    }

    /// Whether an answer at this moment comes too late to arm or feed it, where leases of the span `ttl` were asked for at the moment
    /// `sent`: without a margin once more than half of the span has passed since then, and with one never.
    pub fn is_late(&self, now: Ticks, sent: Ticks, ttl: Ticks) -> bool
        ensures { result ≡ is_late self.now.margin now.0 sent.0 ttl.0 }
    {
        match self.margin {
            None => ttl.0 / 2 < now.0.saturating_sub(sent.0),
            Some(_) => false,
        }
    }

    /// The deadline is removed.
    pub fn disarm(&mut self)
        ensures { self.new ≡ record self.old { deadline = None } }
    {
        self.deadline = None;
    }

    /// The deadline moves to its timeout after this moment, over leases of the span `ttl`, where the watchdog is used and its
    /// device works.
    pub(crate) fn feed(&mut self, now: Ticks, ttl: Ticks)
        requires moment { now.0 ≤ latest }
        requires span { IsLeaseSpan ttl.0 }
        ensures { self.new ≡ fed now.0 ttl.0 self.old }
    {
        if self.is_armable() {
            self.deadline = Some(now + self.timeout(ttl));
        }
    }

    /// Whether it is required and its device doesn't work.
    pub(crate) fn is_refusing(&self) -> bool
        ensures { IsTrue result ↔ IsRefusing self.now }
    {
        self.mode == Mode::Required && !self.works
    }

    /// Whether it is used and its device works.
    fn is_armable(&self) -> bool
        ensures { result ≡ is_armable self.now.mode self.now.works }
    {
        match self.mode {
            Mode::Off => false,
            Mode::Automatic | Mode::Required => self.works,
        }
    }

    /// How long it waits for the next feed.
    fn timeout(&self, ttl: Ticks) -> Ticks
        requires { IsLeaseSpan ttl.0 }
        ensures { result.0 ≡ timeout_of self.now.margin ttl.0 }
    {
        match self.margin {
            None => Ticks(ttl.0 / 2),
            Some(margin) => Ticks(ttl.0 - margin.0),
        }
    }
}
