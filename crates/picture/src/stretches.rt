//! Stretches of time that are drawn shorter than they are.
ghost use Rattle.std.specs.Prelude.{◌≡◌, ◌++◌, ◌-◌, IfOk, OnOk, string_bytes};
ghost use Rattle.svg.specs.Forests.{forest_text};
ghost use Rattle.picture.specs.Stretches.{stretch_if, stretch_text, stretch_tree, stretches_tree};

use crate::frame::Frame;
use crate::lanes::TOP;
use pat_base::TICKS_OF_SECOND;
use run_reading::{LONGEST_STRETCH, Sight};
use std::alloc::{AllocError, Global};
use svg::{Area, Paint, push_rect};

/// Appends, behind the lanes, each stretch without lines that is drawn shorter than it is. Its title tells how long it is.
pub(crate) fn push_stretches(
    out: &mut String,
    alloc: Global,
    frame: Frame,
    height: u64,
    sights: &[Sight],
) -> Result<(), AllocError>
    ensures { OnOk result (string_bytes out.new ≡ string_bytes out.old ++ forest_text (stretches_tree frame.end height 0 sights.now)) }
{
    let mut last = 0;
    for sight in sights {
        push_stretch_if(out, alloc, frame, height, last, sight)?;
        last = sight.tick();
    }
    Ok(())
}

/// Appends the stretch between a moment and a line, where it is drawn shorter than it is.
fn push_stretch_if(
    out: &mut String,
    alloc: Global,
    frame: Frame,
    height: u64,
    last: u64,
    sight: &Sight,
) -> Result<(), AllocError>
    ensures { OnOk result (string_bytes out.new ≡ string_bytes out.old ++ forest_text (stretch_if frame.end height sight.now (sight.now.tick - last))) }
{
    let ticks = sight.tick().saturating_sub(last);
    if ticks > LONGEST_STRETCH {
        push_stretch(out, alloc, frame, height, sight, ticks)
    } else {
        Ok(())
    }
}

/// Appends the stretch of so many ticks before a line.
#[tactic(auto, unfolding(crate::specs::Stretches::stretch_tree))]
fn push_stretch(
    out: &mut String,
    alloc: Global,
    frame: Frame,
    height: u64,
    sight: &Sight,
    ticks: u64,
) -> Result<(), AllocError>
    ensures { OnOk result (string_bytes out.new ≡ string_bytes out.old ++ forest_text (stretch_tree frame.end height sight.now ticks)) }
{
    let begin = frame.x(sight.offset().saturating_sub(LONGEST_STRETCH));
    let area = Area {
        x: begin,
        y: TOP,
        width: frame.x(sight.offset()).saturating_sub(begin),
        height,
    };
    let text = stretch_text(alloc, ticks)?;
    push_rect(out, area, Paint::Shortened, text.as_bytes())?;
    Ok(())
}

/// How long a stretch of so many ticks is, and how long it is drawn.
fn stretch_text(alloc: Global, ticks: u64) -> Result<String, AllocError>
    ensures { IfOk result (λ text. string_bytes text ≡ stretch_text ticks) }
{
    let (whole, tenths) = (ticks / TICKS_OF_SECOND, ticks % TICKS_OF_SECOND);
    format!(in alloc; "{whole}.{tenths} s without lines are drawn as 5.0 s")
}
