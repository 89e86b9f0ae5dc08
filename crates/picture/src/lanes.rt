//! Lanes.
ghost use Rattle.std.specs.Prelude.{◌≡◌, ◌++◌, ◌<◌, ◌≤◌, ◌+◌, ◌*◌, ◌^◌, OnOk, Some, length, string_bytes};
ghost use Rattle.svg.specs.Forests.{forest_text};
ghost use Rattle.pat_base.specs.Name.{name_bytes};
ghost use Rattle.picture.specs.Lanes.{band_tree, bands_tree, ground_tree, lane_tree, lanes_tree};

use crate::band::Band;
use crate::bars::{Row, push_bars};
use crate::frame::{AXIS, Frame, LEFT};
use crate::marks::push_marks;
use pat_base::Name;
use run_reading::{MOST_LANES, Sight};
use std::alloc::AllocError;
use svg::{Area, Paint, Spot, Tag, close, open_group, push_label, push_rect};

/// How high a lane is, and where the first begins, in pixels.
pub(crate) const LANE: u64 = 106;

pub(crate) const TOP: u64 = 24;

/// Appends a lane for each member, in the order of their first lines, and one for the commits.
pub(crate) fn push_lanes(
    out: &mut String,
    frame: Frame,
    names: &[Name],
    sights: &[Sight],
) -> Result<(), AllocError>
    requires { length names.now ≤ MOST_LANES }
    ensures { OnOk result (string_bytes out.new ≡ string_bytes out.old ++ forest_text (lanes_tree frame.end 0 names.now sights.now)) }
{
    for (place, name) in names.iter().enumerate() {
        push_member_lane(out, frame, place, *name, sights)?;
    }
    push_lane(out, frame, None, lane_y(names.len()), b"commits", sights)?;
    Ok(())
}

/// Appends the lane of a member.
fn push_member_lane(
    out: &mut String,
    frame: Frame,
    place: usize,
    name: Name,
    sights: &[Sight],
) -> Result<(), AllocError>
    requires { place ≤ MOST_LANES }
    ensures { OnOk result (string_bytes out.new ≡ string_bytes out.old ++ forest_text (lane_tree frame.end (Some place) (TOP + place * LANE) (name_bytes name) sights.now)) }
{
    push_lane(
        out,
        frame,
        Some(place),
        lane_y(place),
        name.as_bytes(),
        sights,
    )
}

/// Where the lane of this number begins, in pixels.
pub(crate) fn lane_y(place: usize) -> u64
    requires { place ≤ MOST_LANES + 1 }
    ensures value { result ≡ TOP + place * LANE }
    ensures most { result < 2 ^ 32 }
{
    TOP + place as u64 * LANE
}

/// Appends a lane: its ground and its name, the bars of server, key and agent, and the marks.
fn push_lane(
    out: &mut String,
    frame: Frame,
    lane: Option<usize>,
    y: u64,
    name: &[u8],
    sights: &[Sight],
) -> Result<(), AllocError>
    requires { y < 2 ^ 32 }
    ensures { OnOk result (string_bytes out.new ≡ string_bytes out.old ++ forest_text (lane_tree frame.end lane y name.now sights.now)) }
{
    open_group(out)?;
    push_ground(out, y, name)?;
    push_bands(out, frame, lane, y, sights)?;
    push_marks(out, frame, lane, y, sights)?;
    close(out, Tag::Group)?;
    Ok(())
}

/// Appends the bars of server, key and agent.
fn push_bands(
    out: &mut String,
    frame: Frame,
    lane: Option<usize>,
    y: u64,
    sights: &[Sight],
) -> Result<(), AllocError>
    requires { y < 2 ^ 32 }
    ensures { OnOk result (string_bytes out.new ≡ string_bytes out.old ++ forest_text (bands_tree frame.end lane y sights.now)) }
{
    push_band(out, frame, Band::Server, lane, y + 18, 14, sights)?;
    push_band(out, frame, Band::Key, lane, y + 34, 6, sights)?;
    push_band(out, frame, Band::Agent, lane, y + 42, 6, sights)?;
    Ok(())
}

#[tactic(auto, unfolding(crate::specs::Lanes::band_tree))]
fn push_band(
    out: &mut String,
    frame: Frame,
    band: Band,
    lane: Option<usize>,
    y: u64,
    height: u64,
    sights: &[Sight],
) -> Result<(), AllocError>
    ensures { OnOk result (string_bytes out.new ≡ string_bytes out.old ++ forest_text (band_tree frame.end band lane y height sights.now)) }
{
    let row = Row {
        band,
        lane,
        y,
        height,
    };
    push_bars(out, frame, row, sights)
}

fn push_ground(out: &mut String, y: u64, name: &[u8]) -> Result<(), AllocError>
    requires { y < 2 ^ 32 }
    ensures { OnOk result (string_bytes out.new ≡ string_bytes out.old ++ forest_text (ground_tree y name.now)) }
{
    let area = Area {
        x: LEFT,
        y: y + 16,
        width: AXIS,
        height: 34,
    };
    push_rect(out, area, Paint::Ground, name)?;
    push_label(out, Spot { x: 8, y: y + 30 }, Paint::Heading, name)?;
    Ok(())
}
