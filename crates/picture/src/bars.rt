//! Bars.
ghost use Rattle.std.specs.Prelude.{◌≡◌, ◌++◌, IfOk, OnOk, string_bytes};
ghost use Rattle.svg.specs.Forests.{forest_text};
ghost use Rattle.picture.specs.Bands.{paint_in};
ghost use Rattle.picture.specs.Bars.{bar_if, bar_tree, bars_tree, until_if};
ghost use Rattle.run_reading.specs.declared.sight.TheConstants.{MOST_OFFSET};
ghost use Rattle.std.specs.Prelude.{◌≤◌};

use crate::band::{Band, paint_in};
use crate::frame::Frame;
use run_reading::Sight;
use std::alloc::AllocError;
use svg::{Area, Paint, push_rect};

/// Where the bars of a lane stand: which, of whom, at which height, and how high they are, in pixels.
#[derive(Clone, Copy)]
pub(crate) struct Row {
    pub band: Band,
    pub lane: Option<usize>,
    pub y: u64,
    pub height: u64,
}

/// Appends a bar for each line that says what the band is from there on, up to the next such line, the last first.
pub(crate) fn push_bars(
    out: &mut String,
    frame: Frame,
    row: Row,
    sights: &[Sight],
) -> Result<(), AllocError>
    ensures { OnOk result (string_bytes out.new ≡ string_bytes out.old ++ forest_text (bars_tree frame.end row sights.now)) }
{
    let mut until = frame.end;
    let mut left = sights.len();
    while left > 0 {
        left -= 1;
        let sight = &sights[left];
        until = push_bar_if(out, frame, row, sight, until)?;
    }
    Ok(())
}

/// Appends the bar of a line, if it has one, and answers where a bar ends that it follows.
fn push_bar_if(
    out: &mut String,
    frame: Frame,
    row: Row,
    sight: &Sight,
    until: u64,
) -> Result<u64, AllocError>
    requires { until ≤ MOST_OFFSET }
    ensures text { OnOk result (string_bytes out.new ≡ string_bytes out.old ++ forest_text (bar_if frame.end row sight.now until (paint_in row.band row.lane sight.now))) }
    ensures until { IfOk result (λ later. later ≡ until_if (paint_in row.band row.lane sight.now) sight.now until) }
    ensures most { IfOk result (λ later. later ≤ MOST_OFFSET) }
{
    match paint_in(row.band, row.lane, sight) {
        None => Ok(until),
        Some(paint) => {
            push_bar(out, frame, row, sight, until, paint)?;
            Ok(sight.offset())
        }
    }
}

/// Appends the bar of a line, which ends so far behind the start.
#[tactic(auto, unfolding(crate::specs::Bars::bar_tree))]
fn push_bar(
    out: &mut String,
    frame: Frame,
    row: Row,
    sight: &Sight,
    until: u64,
    paint: Paint,
) -> Result<(), AllocError>
    requires { until ≤ MOST_OFFSET }
    ensures { OnOk result (string_bytes out.new ≡ string_bytes out.old ++ forest_text (bar_tree frame.end row sight.now until paint)) }
{
    let x = frame.x(sight.offset());
    let width = frame.x(until).saturating_sub(x);
    let area = Area {
        x,
        y: row.y,
        width,
        height: row.height,
    };
    push_rect(out, area, paint, sight.line())
}
