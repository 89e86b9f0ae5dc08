//! Where moments stand.
ghost use Rattle.std.specs.Prelude.{◌≡◌, ◌≤◌, ◌<◌, ◌^◌};
ghost use Rattle.picture.specs.Frames.{end_by, end_of, offset_at, point_offset, point_tick};
ghost use Rattle.run_reading.specs.declared.sight.TheConstants.{MOST_OFFSET};

use run_reading::{Answer, AnswerLine, MOST_OFFSET, Run, Sight, offset_after};

/// How wide a picture is, in pixels.
pub(crate) const WIDTH: u64 = 1200;

/// Where the time axis begins, and how long it is; right of it labels go on.
pub(crate) const LEFT: u64 = 120;

pub(crate) const AXIS: u64 = 880;

/// Where the end of a run stands: so far behind the start, at least one tick.
#[derive(Clone, Copy)]
pub(crate) struct Frame {
    pub end: u64,
    ghost some: { 1 ≤ end },
    ghost most: { end ≤ MOST_OFFSET },
}

impl Frame {
    ghost use Rattle.std.specs.Prelude.{◌≡◌, ◌≤◌, ◌<◌, ◌^◌};
    ghost use Rattle.picture.specs.Frames.{frame_end, x_at};
    ghost use Rattle.run_reading.specs.declared.sight.TheConstants.{MOST_OFFSET};

    /// The frame of a run.
    pub fn of(run: &Run) -> Frame
        ensures { result.end ≡ frame_end run.now }
    {
        let end = end_of(run.answers(), run.tick());
        let offset = offset_after(run.offset(), end.saturating_sub(run.tick()));
        Frame { end: offset.max(1) }
    }

    /// Where a moment stands, in pixels.
    pub fn x(self, offset: u64) -> u64
        requires { offset ≤ MOST_OFFSET }
        ensures value { result ≡ x_at self.end offset }
        ensures most { result < 2 ^ 60 }
    {
        LEFT + offset * AXIS / self.end
    }
}

/// The moment of the end, where the summary tells it, and else this one.
fn end_of(answers: &[AnswerLine], tick: u64) -> u64
    ensures { result ≡ end_of answers.now tick }
{
    let mut end = tick;
    for line in answers {
        end = end_by(line, end);
    }
    end
}

fn end_by(line: &AnswerLine, end: u64) -> u64
    ensures { result ≡ end_by end line.now }
{
    match (line.answer(), line.moment()) {
        (Answer::End, Some(moment)) => moment,
        _ => end,
    }
}

/// How far behind the start a moment is drawn.
pub(crate) fn offset_at(sights: &[Sight], tick: u64) -> u64
    ensures value { result ≡ offset_at sights.now tick }
    ensures most { result ≤ MOST_OFFSET }
{
    let (mut last, mut offset) = (0, 0);
    for sight in sights {
        last = point_tick(tick, last, sight);
        offset = point_offset(tick, offset, sight);
    }
    offset_after(offset, tick.saturating_sub(last))
}

/// The moment of a line where that comes no later than this one, and else the last before it.
fn point_tick(tick: u64, last: u64, sight: &Sight) -> u64
    ensures { result ≡ point_tick tick last sight.now }
{
    if sight.tick() <= tick {
        sight.tick()
    } else {
        last
    }
}

/// Where that moment is drawn.
fn point_offset(tick: u64, offset: u64, sight: &Sight) -> u64
    requires { offset ≤ MOST_OFFSET }
    ensures value { result ≡ point_offset tick offset sight.now }
    ensures most { result ≤ MOST_OFFSET }
{
    if sight.tick() <= tick {
        sight.offset()
    } else {
        offset
    }
}
