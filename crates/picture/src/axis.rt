//! The time axis.
ghost use Rattle.std.specs.Prelude.{◌≡◌, ◌++◌, IfOk, OnOk, string_bytes};
ghost use Rattle.svg.specs.Forests.{forest_text};
ghost use Rattle.picture.specs.Frames.{x_at};
ghost use Rattle.picture.specs.Axis.{axis_heading, axis_tree, room_after, seconds_text, time_if, time_tree, times_tree};

use crate::frame::Frame;
use pat_base::TICKS_OF_SECOND;
use run_reading::Sight;
use std::alloc::{AllocError, Global};
use svg::{Paint, Spot, push_label};

/// How much room a moment takes on the axis, in pixels.
pub(crate) const MOMENT: u64 = 50;

/// Appends the time axis: the moments of lines in seconds, each where there is room behind those before it.
pub(crate) fn push_axis(
    out: &mut String,
    alloc: Global,
    frame: Frame,
    y: u64,
    sights: &[Sight],
) -> Result<(), AllocError>
    ensures { OnOk result (string_bytes out.new ≡ string_bytes out.old ++ forest_text (axis_tree frame.end y sights.now)) }
{
    push_axis_heading(out, y)?;
    push_times(out, alloc, frame, y, sights)?;
    Ok(())
}

#[tactic(auto, unfolding(crate::specs::Axis::axis_heading))]
fn push_axis_heading(out: &mut String, y: u64) -> Result<(), AllocError>
    ensures { OnOk result (string_bytes out.new ≡ string_bytes out.old ++ forest_text (axis_heading y)) }
{
    push_label(out, Spot { x: 8, y }, Paint::Heading, b"seconds")
}

fn push_times(
    out: &mut String,
    alloc: Global,
    frame: Frame,
    y: u64,
    sights: &[Sight],
) -> Result<(), AllocError>
    ensures { OnOk result (string_bytes out.new ≡ string_bytes out.old ++ forest_text (times_tree frame.end y 0 sights.now)) }
{
    let mut free = 0;
    for sight in sights {
        free = push_time_if(out, alloc, frame, free, y, sight)?;
    }
    Ok(())
}

/// Appends a moment where there is room, and answers from where on there is room then.
fn push_time_if(
    out: &mut String,
    alloc: Global,
    frame: Frame,
    free: u64,
    y: u64,
    sight: &Sight,
) -> Result<u64, AllocError>
    ensures text { OnOk result (string_bytes out.new ≡ string_bytes out.old ++ forest_text (time_if free (x_at frame.end sight.now.offset) y sight.now.tick)) }
    ensures room { IfOk result (λ from. from ≡ room_after free (x_at frame.end sight.now.offset)) }
{
    let x = frame.x(sight.offset());
    if free > x {
        return Ok(free);
    }
    push_time(out, alloc, x, y, sight.tick())?;
    Ok(x + MOMENT)
}

#[tactic(auto, unfolding(crate::specs::Axis::time_tree))]
fn push_time(out: &mut String, alloc: Global, x: u64, y: u64, tick: u64) -> Result<(), AllocError>
    ensures { OnOk result (string_bytes out.new ≡ string_bytes out.old ++ forest_text (time_tree x y tick)) }
{
    let text = seconds_text(alloc, tick)?;
    push_label(out, Spot { x, y }, Paint::Label, text.as_bytes())?;
    Ok(())
}

/// A moment in seconds.
fn seconds_text(alloc: Global, tick: u64) -> Result<String, AllocError>
    ensures { IfOk result (λ text. string_bytes text ≡ seconds_text tick) }
{
    let (whole, tenths) = (tick / TICKS_OF_SECOND, tick % TICKS_OF_SECOND);
    format!(in alloc; "{whole}.{tenths}")
}
