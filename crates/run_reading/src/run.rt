//! A run as its lines tell it.
ghost use Rattle.std.specs.Prelude.{◌≡◌, ◌≤◌, IfOk, OnOk};
ghost use Rattle.script_words.specs.Lines.{lines_in};
ghost use Rattle.run_reading.specs.Runs.{lane_of, offset_after, run_of};
ghost use Rattle.run_reading.specs.declared.sight.TheConstants.{MOST_OFFSET};

use crate::sight::MOST_OFFSET;
use crate::{AnswerLine, Answered, Sight, Told};
use pat_base::{MOST_MEMBERS, Name};
use script_words::cut_line;
use std::alloc::{AllocError, Global};
use std::marker::Model;

/// The longest stretch without lines that is drawn as long as it is, in ticks of 100 ms.
pub const LONGEST_STRETCH: u64 = 50;

/// A picture has so many lanes of members at most: a run has no more of them, and a remote primary.
pub const MOST_LANES: usize = MOST_MEMBERS + 1;

/// A closing summary has so many lines.
pub const MOST_ANSWERS: usize = 7;

/// What is drawn of a run.
#[derive(Drop)]
pub struct Run {
    names: Vec<Name>,
    sights: Vec<Sight>,
    answers: Vec<AnswerLine>,
    left_out: u64,
    tick: u64,
    offset: u64,
}

impl Model for Run {
    ghost use Rattle.std.specs.Prelude.{◌≤◌, vec_len};
    ghost use Rattle.run_reading.specs.Runs.{RunText};
    ghost use Rattle.run_reading.specs.declared.run.TheConstants.{MOST_ANSWERS, MOST_LANES};
    ghost use Rattle.run_reading.specs.declared.sight.TheConstants.{MOST_OFFSET};

    ghost Value = { RunText };

    ghost view = { λ r. record { names = r.names.items; sights = r.sights.items; answers = r.answers.items; left_out = r.left_out; tick = r.tick; offset = r.offset } };

    ghost invariant = { λ r. (r.offset ≤ MOST_OFFSET) × (vec_len r.names ≤ MOST_LANES) × (vec_len r.answers ≤ MOST_ANSWERS) };
}

impl Run {
    ghost use Rattle.std.specs.Prelude.{◌≡◌, ◌≤◌, OnOk, length};
    ghost use Rattle.run_reading.specs.Runs.{add_line, empty_run, in_lane, lane_of, leave_out, with_answer, with_named, with_sight, with_told};
    ghost use Rattle.run_reading.specs.declared.run.TheConstants.{MOST_ANSWERS, MOST_LANES};
    ghost use Rattle.run_reading.specs.declared.sight.TheConstants.{MOST_OFFSET};

    /// A run of no lines.
    pub fn new(alloc: Global) -> Run
        ensures { result ≡ empty_run }
    {
        Run {
            names: Vec::new(alloc),
            sights: Vec::new(alloc),
            answers: Vec::new(alloc),
            left_out: 0,
            tick: 0,
            offset: 0,
        }
    }

    /// Of whom it speaks, in the order of their first lines.
    pub fn names(&self) -> &[Name]
        ensures value { result.now ≡ self.now.names }
        ensures most { length result.now ≤ MOST_LANES }
    {
        &self.names
    }

    /// The lines that are drawn, in their order.
    pub fn sights(&self) -> &[Sight]
        ensures { result.now ≡ self.now.sights }
    {
        &self.sights
    }

    /// The lines of the closing summary.
    pub fn answers(&self) -> &[AnswerLine]
        ensures value { result.now ≡ self.now.answers }
        ensures most { length result.now ≤ MOST_ANSWERS }
    {
        &self.answers
    }

    /// How many other lines there are.
    pub fn left_out(&self) -> u64
        ensures { result ≡ self.now.left_out }
    {
        self.left_out
    }

    /// The moment of its last line that is drawn, in ticks of 100 ms.
    pub fn tick(&self) -> u64
        ensures { result ≡ self.now.tick }
    {
        self.tick
    }

    /// How many ticks behind the start that is drawn.
    pub fn offset(&self) -> u64
        ensures value { result ≡ self.now.offset }
        ensures most { result ≤ MOST_OFFSET }
    {
        self.offset
    }

    /// Adds a line. It fails only for want of memory.
    #[tactic(auto, unfolding(crate::specs::Runs::add_line))]
    pub fn add_line(&mut self, alloc: Global, line: &[u8]) -> Result<(), AllocError>
        ensures { OnOk result (self.new ≡ add_line self.old line.now) }
    {
        match Told::read(line) {
            Some(told) => self.add_told(alloc, line, told),
            None => self.add_answer(alloc, line, Answered::read(line)),
        }
    }

    fn add_told(&mut self, alloc: Global, line: &[u8], told: Told) -> Result<(), AllocError>
        ensures { OnOk result (self.new ≡ with_told self.old line.now told) }
    {
        if told.tick < self.tick {
            self.leave_out();
            return Ok(());
        }
        self.add_named(alloc, line, told)
    }

    fn add_named(&mut self, alloc: Global, line: &[u8], told: Told) -> Result<(), AllocError>
        ensures { OnOk result (self.new ≡ with_named self.old told line.now told.of) }
    {
        match told.of {
            None => self.add_sight(alloc, line, told, None),
            Some(name) => self.add_in_lane(alloc, line, told, name),
        }
    }

    fn add_in_lane(
        &mut self,
        alloc: Global,
        line: &[u8],
        told: Told,
        name: Name,
    ) -> Result<(), AllocError>
        ensures { OnOk result (self.new ≡ in_lane self.old told name line.now (lane_of self.old.names name)) }
    {
        if let Some(lane) = lane_of(&self.names, name) {
            return self.add_sight(alloc, line, told, Some(lane));
        }
        let lane = self.names.len();
        if lane >= MOST_LANES {
            self.leave_out();
            return Ok(());
        }
        self.names.push(name)?;
        self.add_sight(alloc, line, told, Some(lane))
    }

    fn add_sight(
        &mut self,
        alloc: Global,
        line: &[u8],
        told: Told,
        lane: Option<usize>,
    ) -> Result<(), AllocError>
        ensures { OnOk result (self.new ≡ with_sight self.old told lane line.now) }
    {
        let offset = offset_after(self.offset, told.tick.saturating_sub(self.tick));
        let line = line.to_vec(alloc)?;
        self.sights
            .push(Sight::new(told.tick, offset, lane, told.happening, line))?;
        self.tick = told.tick;
        self.offset = offset;
        Ok(())
    }

    fn add_answer(
        &mut self,
        alloc: Global,
        line: &[u8],
        answered: Option<Answered>,
    ) -> Result<(), AllocError>
        ensures { OnOk result (self.new ≡ with_answer self.old line.now answered) }
    {
        match answered {
            Some(answered) if self.answers.len() < MOST_ANSWERS => {
                let line = line.to_vec(alloc)?;
                self.answers.push(AnswerLine::new(answered, line))?;
            }
            _ => self.leave_out(),
        }
        Ok(())
    }

    fn leave_out(&mut self)
        ensures { self.new ≡ leave_out self.old }
    {
        self.left_out = self.left_out.saturating_add(1);
    }
}

/// The lane of this name.
fn lane_of(names: &[Name], name: Name) -> Option<usize>
    ensures { result ≡ lane_of names.now name }
{
    names
        .iter()
        .position(|other| other.as_bytes() == name.as_bytes())
}

/// How far behind the start is drawn what comes so many ticks after what is so far behind it.
pub fn offset_after(offset: u64, ticks: u64) -> u64
    requires { offset ≤ MOST_OFFSET }
    ensures value { result ≡ offset_after offset ticks }
    ensures most { result ≤ MOST_OFFSET }
{
    (offset + ticks.min(LONGEST_STRETCH)).min(MOST_OFFSET)
}

/// What is drawn of the lines of a printed run, which may be any bytes. It fails only for want of memory.
pub fn read_run(alloc: Global, bytes: &[u8]) -> Result<Run, AllocError>
    ensures { IfOk result (λ run. run ≡ run_of (lines_in bytes.now)) }
{
    let mut run = Run::new(alloc);
    let mut rest = bytes;
    while let Some((line, behind)) = cut_line(rest) {
        run.add_line(alloc, line)?;
        rest = behind;
    }
    Ok(run)
}
