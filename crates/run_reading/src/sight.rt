//! Lines that are drawn.
use crate::{Answer, Answered, Happening};
use std::marker::Model;

/// No moment is drawn further behind the start than so many ticks.
pub const MOST_OFFSET: u64 = 1 << 48;

/// A line that is drawn.
#[derive(Drop)]
pub struct Sight {
    tick: u64,
    offset: u64,
    lane: Option<usize>,
    happening: Happening,
    line: Vec<u8>,
}

impl Model for Sight {
    ghost use Rattle.std.specs.Prelude.{◌≤◌};
    ghost use Rattle.run_reading.specs.Runs.{SightText};
    ghost use Rattle.run_reading.specs.declared.sight.TheConstants.{MOST_OFFSET};

    ghost Value = { SightText };

    ghost view = { λ s. record { tick = s.tick; offset = s.offset; lane = s.lane; happening = s.happening; line = s.line.items } };

    ghost invariant = { λ s. s.offset ≤ MOST_OFFSET };
}

impl Sight {
    ghost use Rattle.std.specs.Prelude.{◌≡◌, ◌≤◌};
    ghost use Rattle.run_reading.specs.declared.sight.TheConstants.{MOST_OFFSET};

    /// A line that is drawn at this moment, so far behind the start, in this lane.
    pub(crate) fn new(
        tick: u64,
        offset: u64,
        lane: Option<usize>,
        happening: Happening,
        line: Vec<u8>,
    ) -> Sight
        requires { offset ≤ MOST_OFFSET }
        ensures { result ≡ record { tick = tick; offset = offset; lane = lane; happening = happening; line = line.items } }
    {
        Sight {
            tick,
            offset,
            lane,
            happening,
            line,
        }
    }

    /// Its moment, in ticks of 100 ms.
    pub fn tick(&self) -> u64
        ensures { result ≡ self.now.tick }
    {
        self.tick
    }

    /// How many ticks behind the start it is drawn, since no stretch without lines is drawn longer than it may be.
    pub fn offset(&self) -> u64
        ensures value { result ≡ self.now.offset }
        ensures most { result ≤ MOST_OFFSET }
    {
        self.offset
    }

    /// The lane of whom it speaks of; none where it speaks of a commit.
    pub fn lane(&self) -> Option<usize>
        ensures { result ≡ self.now.lane }
    {
        self.lane
    }

    /// What it tells.
    pub fn happening(&self) -> Happening
        ensures { result ≡ self.now.happening }
    {
        self.happening
    }

    /// The line.
    pub fn line(&self) -> &[u8]
        ensures { result.now ≡ self.now.line }
    {
        &self.line
    }
}

/// A line of the closing summary.
#[derive(Drop)]
pub struct AnswerLine {
    answered: Answered,
    line: Vec<u8>,
}

impl Model for AnswerLine {
    ghost use Rattle.run_reading.specs.Runs.{AnswerText};

    ghost Value = { AnswerText };

    ghost view = { λ a. record { answered = a.answered; line = a.line.items } };
}

impl AnswerLine {
    ghost use Rattle.std.specs.Prelude.{◌≡◌};

    /// A line that answers this.
    pub(crate) fn new(answered: Answered, line: Vec<u8>) -> AnswerLine
        ensures { result ≡ record { answered = answered; line = line.items } }
    {
        AnswerLine { answered, line }
    }

    /// Which answer it is.
    pub fn answer(&self) -> Answer
        ensures { result ≡ self.now.answered.answer }
    {
        self.answered.answer
    }

    /// The moment that it tells, in ticks of 100 ms.
    pub fn moment(&self) -> Option<u64>
        ensures { result ≡ self.now.answered.moment }
    {
        self.answered.moment
    }

    /// The line.
    pub fn line(&self) -> &[u8]
        ensures { result.now ≡ self.now.line }
    {
        &self.line
    }
}
