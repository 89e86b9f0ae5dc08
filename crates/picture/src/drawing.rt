//! The whole picture.
ghost use Rattle.std.specs.Prelude.{◌≡◌, ◌++◌, ◌<◌, ◌≤◌, ◌^◌, IfOk, OnOk, length, string_bytes};
ghost use Rattle.svg.specs.Forests.{forest_text};
ghost use Rattle.picture.specs.Pictures.{content_tree, height_of, lanes_height, lower_tree, picture_text, upper_tree};
ghost use Rattle.run_reading.specs.declared.run.TheConstants.{MOST_ANSWERS, MOST_LANES};

use crate::alarms::push_alarms;
use crate::axis::push_axis;
use crate::frame::{Frame, WIDTH};
use crate::lanes::{TOP, lane_y, push_lanes};
use crate::legend::{LINE, push_legend};
use crate::stretches::push_stretches;
use pat_base::Name;
use run_reading::{AnswerLine, MOST_ANSWERS, MOST_LANES, Run, Sight};
use std::alloc::{AllocError, Global};
use svg::{Tag, close, open_root, push_style};

/// The colours of the classes, those of Okabe and Ito, and the fonts of the labels.
pub(crate) const SHEET: &str =
    "text{font-family:sans-serif;font-size:11px;fill:#333}.heading{font-weight:bold}.ground{fill:#f2f2f2}.shortened{fill:#e4e4e4}.replica{fill:#56B4E9}.starting{fill:#F0E442}.primary{fill:#0072B2}.stopping{fill:#E69F00}.crashed{fill:#000}.wiped{fill:#999}.holder{fill:#009E73}.held{fill:#CC79A7}.killed{fill:#000}.paused{fill:#E69F00}.mark{fill:#555}.commit{fill:#0072B2}.alarm{fill:#D55E00}";

/// The picture of a run, as the text of one SVG document. It fails only for want of memory.
pub fn picture_of(alloc: Global, run: &Run) -> Result<String, AllocError>
    ensures { IfOk result (λ text. string_bytes text ≡ picture_text run.now) }
{
    let mut out = String::new(alloc);
    open_root(
        &mut out,
        WIDTH,
        height_of(run.names().len(), run.answers().len()),
    )?;
    push_content(&mut out, alloc, run)?;
    close(&mut out, Tag::Root)?;
    Ok(out)
}

/// Appends what stands in the picture.
fn push_content(out: &mut String, alloc: Global, run: &Run) -> Result<(), AllocError>
    ensures { OnOk result (string_bytes out.new ≡ string_bytes out.old ++ forest_text (content_tree run.now)) }
{
    let frame = Frame::of(run);
    let height = lanes_height(run.names().len());
    push_upper(out, alloc, frame, height, run.names(), run.sights())?;
    push_axis_with_alarms(out, alloc, frame, height, run.sights(), run.answers())?;
    push_legend(
        out,
        alloc,
        TOP + height + 2 * LINE,
        run.answers(),
        run.left_out(),
    )?;
    Ok(())
}

/// Appends the style sheet, the stretches that are shortened, and over them the lanes.
fn push_upper(
    out: &mut String,
    alloc: Global,
    frame: Frame,
    height: u64,
    names: &[Name],
    sights: &[Sight],
) -> Result<(), AllocError>
    requires { length names.now ≤ MOST_LANES }
    ensures { OnOk result (string_bytes out.new ≡ string_bytes out.old ++ forest_text (upper_tree frame.end height names.now sights.now)) }
{
    push_style(out, SHEET)?;
    push_stretches(out, alloc, frame, height, sights)?;
    push_lanes(out, frame, names, sights)?;
    Ok(())
}

/// Appends the axis, and over all lanes the strokes where promises end.
fn push_axis_with_alarms(
    out: &mut String,
    alloc: Global,
    frame: Frame,
    height: u64,
    sights: &[Sight],
    answers: &[AnswerLine],
) -> Result<(), AllocError>
    requires { height < 2 ^ 31 }
    ensures { OnOk result (string_bytes out.new ≡ string_bytes out.old ++ forest_text (lower_tree frame.end height sights.now answers.now)) }
{
    push_axis(out, alloc, frame, TOP + height + LINE, sights)?;
    push_alarms(out, frame, height, sights, answers)?;
    Ok(())
}

/// How high all lanes are, of so many members and of the commits, in pixels.
fn lanes_height(members: usize) -> u64
    requires { members ≤ MOST_LANES }
    ensures value { result ≡ lanes_height members }
    ensures most { result < 2 ^ 31 }
{
    lane_y(members + 1).saturating_sub(TOP)
}

/// How high a picture is, of so many members and lines of the summary, in pixels.
fn height_of(members: usize, answers: usize) -> u64
    requires members { members ≤ MOST_LANES }
    requires answers { answers ≤ MOST_ANSWERS }
    ensures { result ≡ height_of members answers }
{
    TOP + lanes_height(members) + (answers as u64 + 6) * LINE
}
